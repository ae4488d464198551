ghost use Rattle.std.specs.Prelude.{◌≡◌, option_copied};
ghost use Rattle.hq_model.specs.Binding.{variable};

use hq_base::{List, Txt};

/// A session variable: its name in lower case, and its value.
#[derive(Drop)]
pub struct Var {
    pub name: Txt,
    pub value: Txt,
}

/// Session variables. Of a name that is given twice the first one counts.
pub type VarList = List<Var>;

/// Who asks: a role, and the session variables.
#[derive(Drop)]
pub struct Session {
    pub role: Txt,
    pub vars: VarList,
}

impl Session {
    /// The value of the variable of this name.
    pub fn var(&self, name: &Txt) -> Option<&Txt>
        ensures { option_copied result ≡ variable self.now.vars name.now }
    {
        let var = self.vars.as_slice().iter().find(|var| var.name == *name)?;
        Some(&var.value)
    }
}
