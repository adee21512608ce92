// The eight bytes of a BPF instruction: insn.rs of the original. `off` and `imm` are unsigned here, since a job gives their bytes; the
// original's signed numbers have the same bytes.
#![tactic(auto)]

ghost use Rattle.std.specs.Prelude.{◌≡◌};
ghost use Rattle.insn.specs.Insn.{insn_of, insn_bytes};

#[derive(Clone, Copy)]
pub struct Insn {
    pub code: u8,
    pub dst: u8,
    pub src: u8,
    pub off: u16,
    pub imm: u32,
}

impl Insn {
    // How many bytes an instruction has.
    pub const SIZE: usize = 8;

    pub const WIDTHS: [u8; 4] = [1, 1, 2, 4];

    pub fn new(code: u8, dst: u8, src: u8, off: u16, imm: u32) -> Self
        ensures { result ≡ insn_of code dst src off imm }
    {
        Insn {
            code,
            dst,
            src,
            off,
            imm,
        }
    }

    // Higher bits of `dst` and `src` are dropped.
    pub fn to_le_bytes(self) -> [u8; Insn::SIZE]
        ensures { result ≡ insn_bytes self.code self.dst self.src self.off self.imm }
    {
        let registers = (self.dst & 0x0f) | ((self.src & 0x0f) << 4);
        let values = [
            self.code as u64,
            registers as u64,
            self.off as u64,
            self.imm as u64,
        ];
        let mut out = [0u8; Insn::SIZE];
        octets::put_fields(&mut out, &Insn::WIDTHS, &values);
        out
    }
}
