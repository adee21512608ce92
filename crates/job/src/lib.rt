// Jobs: a walk over the lines of a text, which fills the tables or stops at the first refusal. Frames 04, 05 and 06 come by the thousand,
// so no table is copied for them: they change a slot in place, or the open program alone.
#![tactic(auto)]

ghost use Rattle.std.specs.Prelude.{◌≡◌, ◌+◌, ◌≤◌, ◌<◌, length, IfSome, IfOk, option_map};
ghost use Rattle.object.specs.Tables.{Sound};
ghost use Rattle.refusals.specs.Checked.{Stage, take_lines, empty, checked};
ghost use Rattle.lines.specs.Lines.{lines};
ghost use Rattle.job.specs.Walked.{LineSays, line_told, opened_at, code_added, reloc_added, closed_of, built_of, built_with, parsed_as, finished_of, counts_in, Saying, parsed_in, ParsedKept};
ghost use Rattle.lookup.specs.Names.{Names};
ghost use Rattle.judge.specs.Judged.{Agrees, Held};

use ast::{Name, NamedMap};
use judge::{Counts, Declaration, Order};
use lines::Hex;
use object::{Added, BpfObject, Full, Program};
use refusals::Refusal;

// Where the line that starts at `at` ends, if it is one of the format: hexadecimal that an LF ends.
fn read_line(text: &[u8], at: usize) -> Option<usize>
    requires text_len_bound { length text.now ≤ 65535 }
    requires at_in_bounds { at < length text.now }
    ensures { LineSays text.now at (line_told result) }
{
    let ended = lines::line_end(text, at);
    let Some(end) = ended else {
        return None;
    };
    if !lines::is_frame(&text[at..end]) {
        return None;
    }
    Some(end)
}

// What a line that is taken asks for, and where it ends.
#[derive(Clone, Copy)]
struct Said {
    order: Order,
    end: usize,
}

// What the table does with the line that starts at `at`.
fn say(text: &[u8], maps: &[NamedMap], at: usize, counts: Counts) -> Result<Said, Refusal>
    requires text_len_bound { length text.now ≤ 65535 }
    requires at_in_bounds { at < length text.now }
    requires lines_bound { counts.lines < 65536 }
    requires maps_bound { length maps.now ≤ 64 }
    requires names { Names text.now maps.now }
    ensures end_in_bounds { IfOk result (λ said. (at < said.end) × (said.end < length text.now)) }
    ensures saying { (s : Stage) → Agrees s counts → Held text.now maps.now s → Saying text.now at s result }
{
    let line = counts.lines + 1;
    let read = read_line(text, at);
    let Some(end) = read else {
        return Err(Refusal::BadLine(line));
    };
    let hex = Hex {
        chars: &text[at..end],
    };
    let shown = frames::read_frame(hex);
    let Some(frame) = shown else {
        return Err(Refusal::BadFrame(line));
    };
    let verdict = judge::judge_frame(text, maps, at, end, frame, counts);
    verdict.map(|order| Said { order, end })
}

// How much there is before a line, after `lines` other lines. The open program counts.
fn counts_so_far(lines: usize, object: &BpfObject, opened: Option<Program>) -> Counts
    requires { Sound object.now }
    ensures { result ≡ counts_in object.now opened lines }
{
    Counts {
        lines,
        programs: object.program_count + usize::from(opened.is_some()),
        relocs: object.reloc_count,
    }
}

// A program with no line in its body yet: the body starts at `from`, the relocations at slot `first`.
fn opened_at(section: Name, symbol: Name, from: usize, first: usize) -> Program
    requires from_bound { from < 65536 }
    requires first_bound { first < 65536 }
    ensures { result ≡ opened_at section symbol from first }
{
    Program {
        section,
        symbol,
        from: from as u16,
        lines: 0,
        code_len: 0,
        first: first as u16,
        relocs: 0,
    }
}

// A line of `n` bytes of code in the open program.
fn add_code(opened: &mut Option<Program>, n: usize)
    requires lines_bound { IfSome opened.old (λ p. p.lines < 65535) }
    requires n_bound { IfSome opened.old (λ p. p.code_len + n < 65536) }
    ensures { opened.new ≡ option_map (λ p. code_added p n) opened.old }
{
    if let Some(program) = opened {
        program.lines += 1;
        program.code_len += n as u16;
    }
}

// A line with a relocation in the open program.
fn add_reloc(opened: &mut Option<Program>)
    requires lines_bound { IfSome opened.old (λ p. p.lines < 65535) }
    requires relocs_bound { IfSome opened.old (λ p. p.relocs < 65535) }
    ensures { opened.new ≡ option_map reloc_added opened.old }
{
    if let Some(program) = opened {
        program.lines += 1;
        program.relocs += 1;
    }
}

// Adds the open program, if there is one.
fn close(object: BpfObject, opened: Option<Program>) -> Added
    requires { Sound object }
    ensures { result ≡ closed_of object opened }
{
    let Some(program) = opened else {
        return Added {
            answer: Ok(()),
            object,
        };
    };
    object.add_program(program)
}

// The tables and the open program after a step, and whether there was room for what the step adds.
#[derive(Clone, Copy)]
struct Built {
    answer: Result<(), Full>,
    object: BpfObject,
    opened: Option<Program>,
}

// A declaration adds a licence or a map, or opens a program and closes the one that was open. The new one's body starts at `from`.
fn build(object: BpfObject, opened: Option<Program>, declaration: Declaration, from: usize) -> Built
    requires sound { Sound object }
    requires from_bound { from < 65536 }
    ensures { result ≡ built_of object opened declaration from }
{
    match declaration {
        Declaration::License(name) => with_program(object.add_license(name), opened),
        Declaration::Map { decl, name } => with_program(object.add_map(decl, name), opened),
        Declaration::Program { section, symbol } => {
            let first = object.reloc_count;
            let next = opened_at(section, symbol, from, first);
            with_program(close(object, opened), Some(next))
        }
    }
}

fn with_program(added: Added, opened: Option<Program>) -> Built
    ensures { result ≡ built_with added opened }
{
    let answer = added.answer;
    let object = added.object;
    Built {
        answer,
        object,
        opened,
    }
}

// The answer of the whole walk: whether the job is accepted, with the tables beside it.
#[derive(Clone, Copy)]
pub struct Parsed {
    pub answer: Result<(), Refusal>,
    pub object: BpfObject,
}

impl Parsed {
    // How many bytes a job may have.
    pub const LONGEST: usize = 65535;
}

// Takes the lines of a text one after the other, up to the first that is refused. A line is as long as `say` finds it, so that no `for`
// counts them.
fn walk(text: &[u8]) -> Parsed
    requires { length text.now ≤ 65535 }
    ensures result_value { parsed_in text.now result ≡ take_lines empty (lines text.now) }
    ensures parsed_kept { ParsedKept text.now result }
{
    let mut object = BpfObject::new();
    let mut opened = None;
    let mut count = 0;
    let mut at = 0;
    while at < text.len() {
        let counts = counts_so_far(count, &object, opened);
        let line = say(text, object.maps(), at, counts);
        let Ok(said) = line else {
            return ended(line.map(|_| ()), object);
        };
        at = said.end + 1;
        count += 1;
        match said.order {
            Order::Declares(declaration) => {
                let built = build(object, opened, declaration, at);
                let step = built.answer;
                object = built.object;
                opened = built.opened;
                let Ok(()) = step else {
                    return ended(Err(Refusal::OverLimit(count)), object);
                };
            }
            Order::Code(n) => add_code(&mut opened, n),
            Order::Reloc(slot) => {
                let n = object.reloc_count;
                object.slots[n] = Some(slot);
                object.reloc_count = n + 1;
                add_reloc(&mut opened);
            }
        }
    }
    finish(object, opened, count)
}

// The end of the walk, with the tables as they are.
fn ended(answer: Result<(), Refusal>, object: BpfObject) -> Parsed
    ensures { result ≡ parsed_as answer object }
{
    Parsed { answer, object }
}

// The end of the text: the open program is added, and the job is accepted. Not by `close`, through which the object is copied once more.
fn finish(object: BpfObject, opened: Option<Program>, count: usize) -> Parsed
    requires { Sound object }
    ensures { result ≡ finished_of object opened count }
{
    let Some(program) = opened else {
        return ended(Ok(()), object);
    };
    let closed = object.add_program(program);
    let step = closed.answer;
    let object = closed.object;
    let Ok(()) = step else {
        return ended(Err(Refusal::OverLimit(count)), object);
    };
    ended(Ok(()), object)
}

// The job of a text, or the one refusal that the table gives.
pub fn parse(text: &[u8]) -> Parsed
    ensures result_value { parsed_in text.now result ≡ checked text.now }
    ensures parsed_kept { ParsedKept text.now result }
{
    if Parsed::LONGEST < text.len() {
        return Parsed {
            answer: Err(Refusal::TooLong),
            object: BpfObject::new(),
        };
    }
    if text.len() == 0 {
        return Parsed {
            answer: Ok(()),
            object: BpfObject::new(),
        };
    }
    walk(text)
}
