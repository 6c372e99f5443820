ghost use Rattle.std.specs.Prelude.{◌≡◌};
ghost use Rattle.capture_record.specs.Listing.{listed};
ghost use Rattle.exports_record.specs.Listings.{listed_given};

use sequence_table::table::Table;

// A record into a table: what is listed of it.
#[unsafe(no_mangle)]
pub extern "C" fn tallowbrim_record(
    table: &mut Table,
    original: u32,
    s: &[u8],
    out: &mut [u64; 8],
) -> u32
    ensures { listed_given (listed table.old original s.now) out.old ≡ ((result, out.new), table.new) }
{
    exports_record::tallowbrim_record(table, original, s, out)
}
