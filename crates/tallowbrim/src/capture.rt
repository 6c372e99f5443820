ghost use Rattle.std.specs.Prelude.{◌≡◌};
ghost use Rattle.exports_words.specs.Given.{given};
ghost use Rattle.capture_header.specs.Headers.{file_header, record_header, header_cause, file_header_answer, record_header_answer, header_cause_answer};
ghost use Rattle.capture_frame.specs.Frame.{carried, frame_answer};
ghost use Rattle.exports_capture.specs.Orders.{order_of};

// The first 24 bytes of a capture file: its byte order.
#[unsafe(no_mangle)]
pub extern "C" fn tallowbrim_file_header(s: &[u8], out: &mut [u64; 1]) -> u32
    ensures { given 1 (file_header_answer (file_header s.now)) out.old ≡ (result, out.new) }
{
    exports_capture::tallowbrim_file_header(s, out)
}

// What a file is whose header is refused.
#[unsafe(no_mangle)]
pub extern "C" fn tallowbrim_header_cause(s: &[u8], out: &mut [u64; 3]) -> u32
    ensures { given 3 (header_cause_answer (header_cause s.now)) out.old ≡ (result, out.new) }
{
    exports_capture::tallowbrim_header_cause(s, out)
}

// The 16 bytes in front of a record; the order is 1 for big-endian, anything else for little-endian.
#[unsafe(no_mangle)]
pub extern "C" fn tallowbrim_record_header(order: u64, s: &[u8], out: &mut [u64; 5]) -> u32
    ensures { given 5 (record_header_answer (record_header (order_of order) s.now)) out.old ≡ (result, out.new) }
{
    exports_capture::tallowbrim_record_header(order, s, out)
}

// What a record carries that was so long and of which these bytes were captured.
#[unsafe(no_mangle)]
pub extern "C" fn tallowbrim_carried(original: u32, s: &[u8], out: &mut [u64; 5]) -> u32
    ensures { given 5 (frame_answer (carried original s.now)) out.old ≡ (result, out.new) }
{
    exports_capture::tallowbrim_carried(original, s, out)
}
