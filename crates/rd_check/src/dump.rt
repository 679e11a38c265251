//! A dump that was read.
ghost use Rattle.std.specs.Prelude.{◌<◌, length, IfOk, IsErrOf};
ghost use Rattle.rd_report.specs.Dumps.{NamedList};
ghost use Rattle.rd_check.specs.Dumped.{IsDumpOf};
ghost use Rattle.rd_check.specs.Rows.{IsReadFrom};

use crate::fault::CheckFault;
use crate::nesting::read;
use crate::row::Row;
use std::alloc::Global;
use std::marker::Model;

/// A dump that was read: the rows of its entries.
#[derive(Drop)]
pub struct Dump {
    pub(crate) rows: Vec<Row>,
}

impl Model for Dump {
    ghost use Rattle.std.specs.Prelude.{◌<◌, List, length, map};
    ghost use Rattle.rd_check.specs.Rows.{NamedRow, row_of};

    ghost Value = { List NamedRow };

    ghost view = { λ d. map row_of d.rows.items };

    ghost invariant = { λ d. length d.rows.items < 4294967296 };
}

impl Dump {
    /// Reads the bytes of a dump, fewer than 4,294,967,296 of them. `Dump` exactly where the bytes are no dump.
    pub fn read(alloc: Global, bytes: &[u8]) -> Result<Dump, CheckFault>
        requires { length bytes.now < 4294967296 }
        ensures read { IfOk result (IsReadFrom bytes.now) }
        ensures none { IsErrOf result CheckFault.Dump → (list : NamedList) → IsDumpOf bytes.now list → ⊥ }
    {
        let rows = read(alloc, bytes)?;
        Ok(Dump { rows })
    }
}
