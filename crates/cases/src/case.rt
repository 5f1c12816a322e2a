// A case that was read.
use std::marker::Model;

// The bytes of an admitted system. A clause sees a case as that system.
#[derive(Drop)]
pub struct Case {
    pub(crate) bytes: Vec<u8>,
}

impl Model for Case {
    ghost use Rattle.system.specs.Systems.{System};
    ghost use Rattle.layout.specs.Reading.{system_in};
    ghost use Rattle.cases.specs.Kept.{Kept};

    ghost Value = { System };

    ghost view = { λ case. system_in case.bytes.items };

    ghost invariant = { λ case. Kept case.bytes.items };
}
