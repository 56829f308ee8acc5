//! JSON objects, built member by member.
ghost use Rattle.std.specs.Prelude.{◌≡◌, IfOk};
ghost use Rattle.serde_json.specs.Data.{boolean, number, unsigned, string, array, no_items, object};
ghost use Rattle.serde_json.specs.Data.{no_members};
ghost use Rattle.serde_json.specs.View.{view};
ghost use Rattle.dap_answers.specs.Object.{members_of, IsWith, IsObject};

use serde_json::{Map, Value};
use std::alloc::{AllocError, Global};

/// Builds a JSON object member by member, in any order. If memory runs out for a member, only `finish` fails,
/// so that an object is one expression.
#[derive(Drop)]
pub struct Object {
    alloc: Global,
    members: Map<String, Value>,
    // False if there was no memory for one of the members.
    is_whole: bool,
}

impl Object {
    /// An object without members.
    pub fn new(alloc: Global) -> Object
        ensures { members_of result ≡ no_members }
    {
        Object {
            alloc,
            members: Map::new(alloc),
            is_whole: true,
        }
    }

    /// Adds a value at a key.
    pub fn value(mut self, key: &str, value: Value) -> Object
        ensures { IsWith self key.now (view value) result }
    {
        let put = serde_json::put(&mut self.members, self.alloc, key, value);
        self.is_whole &= put.is_ok();
        self
    }

    /// Adds a text at a key.
    pub fn text(mut self, key: &str, text: &str) -> Object
        ensures { IsWith self key.now (string text.now) result }
    {
        match Value::try_from_str(self.alloc, text) {
            Ok(value) => self.value(key, value),
            Err(_) => {
                self.is_whole = false;
                self
            }
        }
    }

    /// Adds a whole number at a key.
    pub fn number(self, key: &str, whole: u64) -> Object
        ensures { IsWith self key.now (number (unsigned whole)) result }
    {
        self.value(key, Value::from(whole))
    }

    /// Adds `true` or `false` at a key.
    pub fn flag(self, key: &str, flag: bool) -> Object
        ensures { IsWith self key.now (boolean flag) result }
    {
        self.value(key, Value::from(flag))
    }

    /// Adds an empty array at a key.
    pub fn empty_list(self, key: &str) -> Object
        ensures { IsWith self key.now (array no_items) result }
    {
        let items = Vec::new(self.alloc);
        self.value(key, Value::from(items))
    }

    /// Adds an empty object at a key.
    pub fn empty_object(self, key: &str) -> Object
        ensures { IsWith self key.now (object no_members) result }
    {
        let members = Map::new(self.alloc);
        self.value(key, Value::from(members))
    }

    /// The object as a JSON value. Fails if memory ran out for a member.
    pub fn finish(self) -> Result<Value, AllocError>
        ensures { IfOk result (λ v. IsObject self (view v)) }
    {
        let Object {
            members,
            is_whole,
            ..
        } = self;
        if is_whole {
            Ok(Value::from(members))
        } else {
            drop(members);
            Err(AllocError)
        }
    }
}
