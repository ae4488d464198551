//! Numbers of names, so that names are compared once.
ghost use Rattle.std.specs.Prelude.{◌≡◌, Some, None, IfOk, OnOk};
ghost use Rattle.hq_gql_nodes.specs.Names.{get_name};
ghost use Rattle.hq_rules_reach.specs.Uses.{AreNumbers, Keeps};

use hq_base::{Memory, Txt};
use hq_gql_nodes::NamePlaces;

/// A number for each name, below their count.
#[derive(Drop)]
pub struct Numbers<'a> {
    pub names: NamePlaces<'a>,
    pub count: usize,
}

impl<'a> Numbers<'a> {
    // Gives a name that has no number the next one.
    fn add(&mut self, name: &'a str) -> Result<usize, Memory>
        requires numbers { AreNumbers (get_name self.old.names) self.old.count }
        requires absent { get_name self.old.names name.now ≡ None }
        ensures numbers { OnOk result (AreNumbers (get_name self.new.names) self.new.count) }
        ensures kept { OnOk result (Keeps (get_name self.old.names) (get_name self.new.names)) }
        ensures given { IfOk result (λ n. get_name self.new.names name.now ≡ Some n) }
    {
        let number = self.count;
        let Some(count) = number.checked_add(1) else {
            return Err(Memory);
        };
        self.names.insert(name, number)?;
        self.count = count;
        Ok(number)
    }

    /// The number of a name.
    pub fn number(&mut self, name: &'a str) -> Result<usize, Memory>
        requires { AreNumbers (get_name self.old.names) self.old.count }
        ensures numbers { OnOk result (AreNumbers (get_name self.new.names) self.new.count) }
        ensures kept { OnOk result (Keeps (get_name self.old.names) (get_name self.new.names)) }
        ensures given { IfOk result (λ n. get_name self.new.names name.now ≡ Some n) }
    {
        match self.names.get(name).copied() {
            Some(number) => Ok(number),
            None => self.add(name),
        }
    }
}

/// The number of a name, if it has one.
pub fn number_of(numbers: &NamePlaces<'_>, name: &Txt) -> Option<usize>
    ensures { result ≡ get_name numbers.now name.now }
{
    numbers.get(name.as_str()).copied()
}
