// Entries that are handed out in a lent table.
ghost use Rattle.std.specs.Prelude.{◌≡◌, length, take};
ghost use Rattle.queue.specs.Settle.{table_after};

use rows::entry::OpSendRow;

// They go to the start of the table, as many as it has places. What it has beyond them stays.
pub fn copy_entries(table: &mut [OpSendRow], entries: &[OpSendRow])
    ensures { table.new ≡ table_after (take (length table.old) entries.now) table.old }
{
    let n = entries.len().min(table.len());
    table[..n].copy_from_slice(&entries[..n]);
}
