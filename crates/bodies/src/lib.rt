// A program's code: the bytes of its frames, one after the other.
#![tactic(auto)]

ghost use Rattle.std.specs.Prelude.{◌≡◌, ◌+◌, ◌≤◌, length, drop};
ghost use Rattle.octets.specs.Over.{over};
ghost use Rattle.lines.specs.Bytes.{bytes};
ghost use Rattle.frames.specs.Frames.{frame_of};
ghost use Rattle.object.specs.Read.{frame_code, code_of, body};
ghost use Rattle.object.specs.Kept.{AllFrames};
ghost use Rattle.bodies.specs.Code.{insn_in};

use frames::Frame;
use insn::Insn;
use lines::Hex;

// The eight bytes of the instruction that a line of ten bytes gives, into a part of exactly their size.
fn put_insn(out: &mut [u8], line: Hex)
    requires line_len { length (bytes line) ≡ 10 }
    requires out_len { length out.old ≡ 8 }
    ensures { out.new ≡ insn_in (bytes line.entry) }
{
    let code = line.byte_at(1);
    let dst = line.byte_at(2);
    let src = line.byte_at(3);
    let off = line.number_at(4, 2);
    let imm = line.number_at(6, 4);
    let insn = Insn::new(code, dst, src, off as u16, imm as u32);
    let bytes = insn.to_le_bytes();
    octets::copy(out, &bytes);
}

// The bytes of a line after its first, into a part of exactly their number.
fn put_bytes(out: &mut [u8], line: Hex)
    requires in_bounds { 1 ≤ length (bytes line) }
    requires out_len { length out.old ≡ length (drop 1 (bytes line)) }
    ensures { out.new ≡ drop 1 (bytes line.entry) }
{
    let behind = Hex {
        chars: &line.chars[2..],
    };
    behind.put_unhex(out);
}

// The code that a line adds, over what is at `at`; returns the place after it.
fn put_frame(out: &mut [u8], at: usize, line: Hex) -> usize
    requires in_bounds { 1 ≤ length (bytes line) }
    requires line_in_bounds { at + length (frame_code (frame_of (bytes line))) ≤ length out.old }
    ensures out_after { out.new ≡ over out.old at (frame_code (frame_of (bytes line.entry))) }
    ensures value { result ≡ at + length (frame_code (frame_of (bytes line.entry))) }
{
    let shown = frames::read_frame(line);
    let Some(frame) = shown else {
        return at;
    };
    match frame {
        Frame::Code => {
            let end = at + (line.len() - 1);
            put_bytes(&mut out[at..end], line);
            end
        }
        Frame::Instruction => {
            let end = at + Insn::SIZE;
            put_insn(&mut out[at..end], line);
            end
        }
        _ => at,
    }
}

// A program's code, frames 04 and 06 mixed in order, into a part of exactly its length.
pub fn put_code(out: &mut [u8], text: &[u8], from: usize, lines: usize)
    requires lines_len { length (body text.now from lines) ≡ lines }
    requires all_frames { AllFrames (body text.now from lines) }
    requires out_len { length out.old ≡ length (code_of (body text.now from lines)) }
    ensures { out.new ≡ code_of (body text.now from lines) }
{
    let mut at: usize = 0;
    let mut start = from;
    for i in 0..lines {
        let ended = lines::line_end(text, start);
        let Some(end) = ended else {
            return;
        };
        let line = Hex {
            chars: &text[start..end],
        };
        at = put_frame(out, at, line);
        start = end + 1;
    }
}
