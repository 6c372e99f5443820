ghost use Rattle.std.specs.Prelude.{◌≡◌};
ghost use Rattle.exports_words.specs.Given.{given};
ghost use Rattle.policy_lawful.specs.Lawful.{reply_lawful, lawful_answer, first_difference, difference_answer};

// Whether a reply is lawful beside the offer that it answers and, where there is one, a book: 0, or the refusal.
#[unsafe(no_mangle)]
pub extern "C" fn tallowbrim_lawful(offer: &[u8], reply: &[u8], booked: bool, book: &[u8]) -> u32
    ensures { result ≡ (lawful_answer (reply_lawful booked book.now offer.now reply.now)).number }
{
    exports_lawful::tallowbrim_lawful(offer, reply, booked, book)
}

// What differs first of a reply, by the same offer and book.
#[unsafe(no_mangle)]
pub extern "C" fn tallowbrim_difference(
    offer: &[u8],
    reply: &[u8],
    booked: bool,
    book: &[u8],
    out: &mut [u64; 5],
) -> u32
    ensures { given 5 (difference_answer (first_difference booked book.now offer.now reply.now)) out.old ≡ (result, out.new) }
{
    exports_lawful::tallowbrim_difference(offer, reply, booked, book, out)
}
