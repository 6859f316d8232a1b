//! What is built: a table, and its starts.
ghost use Rattle.std.specs.Prelude.{◌≡◌, IfOk};

use rx_onepass_table::Table;
use rx_search::Memory;

/// The table of a one-pass DFA, and its starts.
#[derive(Drop)]
pub struct Built {
    pub table: Table,
    /// The row of each start: that of all patterns first, and then that of each, where they are asked for.
    pub starts: Vec<usize>,
}

impl Built {
    /// The same once more.
    ///
    /// # Errors
    ///
    /// Only want of memory.
    pub fn clone(&self) -> Result<Built, Memory>
        ensures table { IfOk result (λ b. b.table ≡ self.now.table) }
        ensures starts { IfOk result (λ b. b.starts.items ≡ self.now.starts.items) }
    {
        let table = self.table.clone()?;
        let starts = self.starts.clone()?;
        Ok(Built { table, starts })
    }
}
