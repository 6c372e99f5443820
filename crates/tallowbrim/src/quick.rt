ghost use Rattle.std.specs.Prelude.{◌≡◌};
ghost use Rattle.quick_end.specs.Fresh.{fresh};
ghost use Rattle.quick_shape.specs.Shapes.{nonce};
ghost use Rattle.quick_begin.specs.Begin.{begun};
ghost use Rattle.quick_tick.specs.Tick.{ticked};
ghost use Rattle.quick_deliver.specs.Deliver.{delivered};
ghost use Rattle.exports_words.specs.Given.{given};
ghost use Rattle.exports_end.specs.Ends.{progress_of, end_of};
ghost use Rattle.exports_quick.specs.Called.{role_by, fresh_called, called, state_answer, agreed_answer, nonce_called};

// An end starts anew in the lent bytes.
#[unsafe(no_mangle)]
pub extern "C" fn tallowbrim_fresh(
    end: &mut [u8; 398],
    initiator: bool,
    icookie: u64,
    rcookie: u64,
    book: &[u8],
    ah: u32,
    esp: u32,
    nonce: &[u8],
) -> u32
    ensures { fresh_called end.old
        (fresh (role_by initiator) icookie rcookie book.now ah esp nonce.now) ≡ (result, end.new) }
{
    exports_quick::tallowbrim_fresh(end, initiator, icookie, rcookie, book, ah, esp, nonce)
}

// The initiator begins.
#[unsafe(no_mangle)]
pub extern "C" fn tallowbrim_begin(
    end: &mut [u8; 398],
    id: u32,
    first: &[u8],
    second: &[u8],
    sent: &mut [u8],
    got: &[u8],
    output: &mut [u8],
    out: &mut [u64; 2],
) -> u32
    ensures { called end.old out.old
        (begun (end_of end.old) id first.now second.now sent.old got.now output.old) ≡
        record {
          number = result;
          end = end.new;
          out = out.new;
          sent = sent.new;
          got = got.now;
          output = output.new;
        } }
{
    exports_quick::tallowbrim_begin(end, id, first, second, sent, got, output, out)
}

// A message arrives.
#[unsafe(no_mangle)]
pub extern "C" fn tallowbrim_deliver(
    end: &mut [u8; 398],
    holds: bool,
    m: &[u8],
    sent: &mut [u8],
    got: &mut [u8],
    output: &mut [u8],
    out: &mut [u64; 2],
) -> u32
    ensures { called end.old out.old
        (delivered (end_of end.old) holds m.now sent.old got.old output.old) ≡
        record {
          number = result;
          end = end.new;
          out = out.new;
          sent = sent.new;
          got = got.new;
          output = output.new;
        } }
{
    exports_quick::tallowbrim_deliver(end, holds, m, sent, got, output, out)
}

// Time has passed without an answer.
#[unsafe(no_mangle)]
pub extern "C" fn tallowbrim_tick(
    end: &mut [u8; 398],
    sent: &[u8],
    got: &[u8],
    output: &mut [u8],
    out: &mut [u64; 2],
) -> u32
    ensures { called end.old out.old
        (ticked (end_of end.old) sent.now got.now output.old) ≡
        record {
          number = result;
          end = end.new;
          out = out.new;
          sent = sent.now;
          got = got.now;
          output = output.new;
        } }
{
    exports_quick::tallowbrim_tick(end, sent, got, output, out)
}

// Where an end stands.
#[unsafe(no_mangle)]
pub extern "C" fn tallowbrim_state(end: &[u8; 398], out: &mut [u64; 4]) -> u32
    ensures { given 4 (state_answer (progress_of end.now)) out.old ≡ (result, out.new) }
{
    exports_quick::tallowbrim_state(end, out)
}

// What the ends agreed on.
#[unsafe(no_mangle)]
pub extern "C" fn tallowbrim_agreed(end: &[u8; 398], out: &mut [u64; 10]) -> u32
    ensures { given 10 (agreed_answer (progress_of end.now)) out.old ≡ (result, out.new) }
{
    exports_quick::tallowbrim_agreed(end, out)
}

// The nonce of the initiator's or of the responder's message.
#[unsafe(no_mangle)]
pub extern "C" fn tallowbrim_nonce<'a>(
    initiator: bool,
    initiators: &'a [u8],
    responders: &'a [u8],
    buffer: &mut [u8; 256],
    out: &mut [u64; 1],
) -> u32
    ensures { nonce_called (nonce (role_by initiator) initiators.now responders.now) buffer.old ≡
        (result, out.new, buffer.new) }
{
    exports_quick::tallowbrim_nonce(initiator, initiators, responders, buffer, out)
}
