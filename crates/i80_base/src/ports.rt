//! The ports of the processor, and what devices at them promise.
ghost use Rattle.std.specs.Prelude.{◌≡◌, ◌+◌, ◌≤◌, ◌++◌, ◌∷◌, [], List, ℕ};
ghost use Rattle.i80_base.specs.declared.ports.PortOperation.{PortOperation};
ghost use Rattle.i80_base.specs.declared.ports.PortOperation.TheVariants.{In, Out};

/// One IN or OUT, with the byte that went through the port.
#[derive(Clone, Copy, PartialEq, Eq)]
pub enum PortOperation {
    In { port: u8, byte: u8 },
    Out { port: u8, byte: u8 },
}

/// The devices at the ports. A contract sees them as the list of operations since the last
/// time that they were taken, a state, and the number of operations that there is room for.
pub trait Ports {
    /// The state that the answers of the devices depend on.
    type State;

    ghost operations: { Self → List PortOperation };

    ghost state: { Self → Self.State };

    ghost spare: { Self → ℕ };

    // the byte that an IN from a port returns in a state
    ghost answer: { Self.State → ℕ → ℕ };

    // the state after an operation
    ghost after: { Self.State → PortOperation → Self.State };

    /// IN: returns a byte of the port.
    fn input(&mut self, port: u8) -> u8
        requires { 1 ≤ spare self.old }
        ensures value { result ≡ answer (state self.old) port }
        ensures operations { operations self.new ≡ operations self.old ++ In port result ∷ [] }
        ensures state { state self.new ≡ after (state self.old) (In port result) }
        ensures spare { spare self.new + 1 ≡ spare self.old };

    /// OUT: sends a byte to the port.
    fn output(&mut self, port: u8, byte: u8)
        requires { 1 ≤ spare self.old }
        ensures operations { operations self.new ≡ operations self.old ++ Out port byte ∷ [] }
        ensures state { state self.new ≡ after (state self.old) (Out port byte) }
        ensures spare { spare self.new + 1 ≡ spare self.old };
}
