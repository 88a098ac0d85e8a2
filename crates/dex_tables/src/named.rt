//! Numbers that name a row of a table.
ghost use Rattle.std.specs.Prelude.{◌≡◌};
ghost use Rattle.dex_tables.specs.Reading.{named};

use dex_bytes::DexFault;

/// A number in a row of a table names a row of another, which has so many.
pub fn row_named(table: u8, row: u32, rows: u32, number: u32) -> Result<u32, DexFault>
    ensures { result ≡ named table row rows number }
{
    if number < rows {
        Ok(number)
    } else {
        Err(DexFault::Index(table, row, number))
    }
}

/// The same for a number of two bytes.
pub fn short_named(table: u8, row: u32, rows: u32, number: u16) -> Result<u16, DexFault>
    ensures { result ≡ named table row rows number }
{
    if u32::from(number) < rows {
        Ok(number)
    } else {
        Err(DexFault::Index(table, row, u32::from(number)))
    }
}
