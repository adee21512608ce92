// `make`: a whole object or one refusal. The object is measured first. Then each section writer is lent its own part of the output, and the
// bytes between two sections are cleared.
#![tactic(auto)]

ghost use Rattle.std.specs.Prelude.{◌≡◌, ◌+◌, ◌≤◌, length};
ghost use Rattle.object.specs.Read.{declared_maps, job_in};
ghost use Rattle.object.specs.Kept.{Kept};
ghost use Rattle.object.specs.Object as whole;
ghost use Rattle.job.specs.Answer.{answer, fitted, output_after};
ghost use Rattle.maker.specs.Made.{outcome_of, outcome};
ghost use Rattle.elf.specs.Headers.{headers_bytes};
ghost use Rattle.measure.specs.Measured.{rows_of, measured_of, SizesOf, Small};
ghost use Rattle.btf.specs.Btf.{add_types, start};
ghost use Rattle.btf.specs.Maps.{btf_types};

use btf::BtfBuilder;
use elf::{FileHeader, Section};
use measure::{Measured, Sizes};
use object::BpfObject;
use refusals::Refusal;

// What `make` is to write: the sizes of the sections, and how many bytes of `.BTF` its types take.
#[derive(Clone, Copy)]
struct Weighed {
    sizes: Sizes,
    types: usize,
}

// The sizes of the sections whose lengths are not in the tables.
fn weigh(text: &[u8], object: &BpfObject) -> Weighed
    requires { Kept text.now object.now }
    ensures sizes_of { SizesOf (job_in text.now object.now) result.sizes }
    ensures small { Small result.sizes }
    ensures types_value { result.types ≡ length (add_types (btf_types (declared_maps text.now object.now)) start).types }
{
    let maps = object.maps();
    let btf = spans::btf_size(text, maps);
    Weighed {
        sizes: Sizes {
            license: contents::license_len(object.license),
            maps: spans::maps_size(maps),
            btf: BtfBuilder::HEADER + btf.types + btf.strings,
            strtab: strtab::strtab_size(text, object),
        },
        types: btf.types,
    }
}

// The whole object, into a part of exactly its length. The headers of its sections are in `rows`.
fn encode(
    out: &mut [u8],
    text: &[u8],
    rows: &[u8],
    object: &BpfObject,
    measured: Measured,
    sizes: Sizes,
    types: usize,
)
    requires kept { Kept text.now object.now }
    requires sizes_of { SizesOf (job_in text.now object.now) sizes }
    requires small { Small sizes }
    requires types_value { types ≡ length (add_types (btf_types (declared_maps text.now object.now)) start).types }
    requires measured_value { measured ≡ measured_of (job_in text.now object.now) }
    requires rows_value { rows.now ≡ headers_bytes (rows_of (job_in text.now object.now)) }
    requires out_len { (length out.old ≡ length (whole.object (job_in text.now object.now))) × (length out.old ≤ 200000000) }
    ensures { out.new ≡ whole.object (job_in text.now object.now) }
{
    let count = measured.count;
    elf::put_file_header(
        &mut out[0..FileHeader::SIZE],
        measured.at,
        count as u16,
        (count - 1) as u16,
    );
    let end = sections::write_sections(out, text, object, sizes, measured.names, types);
    let at = measured.at as usize;
    octets::clear(&mut out[end..at]);
    let behind = at + Section::SIZE * count;
    octets::copy(&mut out[at..behind], rows);
}

// The object of an accepted job, if the output has room for it: how long it is.
fn build(text: &[u8], out: &mut [u8], object: &BpfObject) -> Result<usize, Refusal>
    requires { Kept text.now object.now }
    ensures result_value { outcome_of result ≡ outcome (fitted (length out.old) (whole.object (job_in text.now object.now))) }
    ensures out_after { out.new ≡ output_after (fitted (length out.old) (whole.object (job_in text.now object.now))) out.old }
{
    let weighed = weigh(text, object);
    let sizes = weighed.sizes;
    let mut table = [0u8; Measured::TABLE];
    let measured = measure::measure(text, &mut table, object, sizes);
    let len = measured.len;
    if out.len() < len {
        return Err(Refusal::NoRoom(len));
    }
    let headers = Section::SIZE * measured.count;
    encode(
        &mut out[0..len],
        text,
        &table[0..headers],
        object,
        measured,
        sizes,
        weighed.types,
    );
    Ok(len)
}

// A whole object or one refusal: the object of the job at the front of the output, and how long it is, or an output that is as it was.
pub fn make(job: &[u8], out: &mut [u8]) -> Result<usize, Refusal>
    ensures result_value { outcome_of result ≡ outcome (answer job.now (length out.old)) }
    ensures out_after { out.new ≡ output_after (answer job.now (length out.old)) out.old }
{
    let parsed = job::parse(job);
    let answer = parsed.answer;
    let Err(refusal) = answer else {
        return build(job, out, &parsed.object);
    };
    Err(refusal)
}
