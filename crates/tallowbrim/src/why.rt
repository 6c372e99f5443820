ghost use Rattle.std.specs.Prelude.{◌≡◌};
ghost use Rattle.exports_words.specs.Given.{given};
ghost use Rattle.policy_why.specs.Why.{why, why_answer};
ghost use Rattle.exports_why.specs.Places.{place_answer};

// Why a transform does not suit a line, by places counted from 0.
#[unsafe(no_mangle)]
pub extern "C" fn tallowbrim_cause(
    book: &[u8],
    m: &[u8],
    set: u8,
    line: u8,
    proposal: u8,
    transform: u8,
    out: &mut [u64; 5],
) -> u32
    ensures { given 5 (why_answer (why book.now m.now (record { set = set; line = line; proposal = proposal; transform = transform }))) out.old ≡ (result, out.new) }
{
    exports_why::tallowbrim_cause(book, m, set, line, proposal, transform, out)
}

// What stands at places of a message's offer: the set's number, the proposal's protocol, the transform's number.
#[unsafe(no_mangle)]
pub extern "C" fn tallowbrim_place(
    m: &[u8],
    set: u8,
    proposal: u8,
    transform: u8,
    out: &mut [u64; 4],
) -> u32
    ensures { given 4 (place_answer m.now (record { set = set; line = 0; proposal = proposal; transform = transform })) out.old ≡ (result, out.new) }
{
    exports_why::tallowbrim_place(m, set, proposal, transform, out)
}
