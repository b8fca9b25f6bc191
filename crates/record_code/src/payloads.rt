ghost use Rattle.std.specs.Prelude.{◌≡◌, ◌++◌, ◌∷◌, [], OnOk, OnErr};

use cfg_base::{Bytes, NoMemory};
use std::alloc::Global;
use std::marker::Model;

/// One record of a journal: the place of its gate, its kind and its payload.
#[derive(Debug, Drop)]
pub struct Placed {
    pub offset: u64,
    pub kind: u8,
    pub payload: Bytes,
}

/// The records of a journal, first to last.
#[derive(Debug, Drop)]
pub struct Payloads {
    records: Vec<Placed>,
}

impl Model for Payloads {
    ghost use Rattle.std.specs.Prelude.{List};
    ghost use Rattle.record_code.specs.declared.payloads.Placed.{Placed};

    ghost Value = { List Placed };

    ghost view = { λ p. p.records.items };
}

impl Payloads {
    /// No records.
    pub fn new(alloc: Global) -> Payloads
        ensures { result ≡ [] }
    {
        Payloads {
            records: Vec::new(alloc),
        }
    }

    /// Puts a record at the end.
    pub fn push(&mut self, placed: Placed) -> Result<(), NoMemory>
        ensures ok { OnOk result (self.new ≡ self.old ++ placed ∷ []) }
        ensures unchanged { OnErr result (self.new ≡ self.old) }
    {
        self.records.push(placed)?;
        Ok(())
    }

    /// The records, in order.
    pub fn as_slice(&self) -> &[Placed]
        ensures { result.now ≡ self.now }
    {
        &self.records
    }
}
