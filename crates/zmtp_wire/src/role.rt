//! The socket types.
ghost use Rattle.std.specs.Prelude.{◌≡◌, [], ◌∷◌};
ghost use Rattle.std.specs.List.{list_any};
ghost use Rattle.std.specs.Str.{bytes_eq};
ghost use Rattle.zmtp_wire.specs.Roles.{accepts, socket_name};

/// The socket type of one side of a connection.
#[derive(Clone, Copy, PartialEq, Eq)]
pub enum Role {
    Router,
    Pub,
    Rep,
    Dealer,
    Sub,
}

impl Role {
    /// The name of the socket type, as in READY's property `Socket-Type`.
    pub fn socket_name(self) -> &'static [u8]
        ensures { result.now ≡ socket_name self }
    {
        match self {
            Role::Router => b"ROUTER",
            Role::Pub => b"PUB",
            Role::Rep => b"REP",
            Role::Dealer => b"DEALER",
            Role::Sub => b"SUB",
        }
    }

    /// Whether a peer of this socket type may talk to this side.
    pub fn accepts(self, socket_type: &[u8]) -> bool
        ensures { result ≡ accepts self socket_type.now }
    {
        match self {
            Role::Router => is(socket_type, b"DEALER") || is_either(socket_type, b"REQ", b"ROUTER"),
            Role::Pub => is_either(socket_type, b"SUB", b"XSUB"),
            Role::Rep => is_either(socket_type, b"REQ", b"DEALER"),
            Role::Dealer => is(socket_type, b"ROUTER"),
            Role::Sub => is(socket_type, b"PUB"),
        }
    }
}

fn is(name: &[u8], one: &[u8]) -> bool
    ensures { result ≡ bytes_eq name.now one.now }
{
    name == one
}

fn is_either(name: &[u8], one: &[u8], other: &[u8]) -> bool
    ensures { result ≡ list_any (bytes_eq name.now) (one.now ∷ other.now ∷ []) }
{
    is(name, one) || is(name, other)
}
