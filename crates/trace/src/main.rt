// trace, the program of document 01 ('The program'): it loads the graph file g.bin of the folder it runs
// in, runs the plan p.bin of the query q.bin over it with the cache on, and prints the rows, or the
// refusal. It reads, calls and prints; what it prints is computed by `load` and `run`.
#![tactic(auto)]

ghost use Rattle.std.specs.Prelude.{◌≡◌, ℕ};
ghost use Rattle.io.specs.Counts.{IsPrefixLen};

use lending::Lending;
use plan::Plan;
use run_spec::{Record, RunAnswer};
use std::fs::File;
use std::io::Read;
use std::rt::Files;
use std::{fmt, io};

// The longest file that is taken, in bytes. A buffer holds one byte more, by which a longer file is known.
const MAX_BYTES: usize = 8192;

const BUFFER_BYTES: usize = MAX_BYTES + 1;

const STORE_WORDS: usize = 4096;

const SCRATCH_WORDS: usize = 2048;

const LIST_WORDS: usize = 2048;

// Why there are no rows to print: a file is too long, or an operation refuses.
#[derive(Drop)]
enum Stop {
    Long(&'static str),
    Refused(u32),
}

impl fmt::Display for Stop {
    fn fmt<W: fmt::Write>(&self, f: &mut fmt::Formatter<W>) -> fmt::Result {
        match self {
            Stop::Long(name) => write!(f, "long {name}"),
            Stop::Refused(refusal) => write!(f, "refused {refusal}"),
        }
    }
}

// What a run answered, and how many words a row of its list has.
#[derive(Drop)]
struct Traced {
    answer: RunAnswer,
    width: usize,
}

// Reads until the buffer is full or the file ends, and answers how many bytes came.
fn read_all(file: &mut impl Read, buffer: &mut [u8]) -> io::Result<usize>
    ensures { (n : ℕ) → result ≡ Ok n → IsPrefixLen n buffer.new }
{
    let mut done = 0;
    while done < buffer.len() {
        let more = file.read(&mut buffer[done..])?;
        if more == 0 {
            break;
        }
        done += more;
    }
    Ok(done)
}

// Reads a file as far as the buffer goes and answers how many bytes came; 0 where the file is missing or
// can't be read to its end.
fn read(rt: &impl Files, name: &str, buffer: &mut [u8]) -> usize
    ensures { IsPrefixLen result buffer.new }
{
    match File::open(rt, name) {
        Ok(mut file) => match read_all(&mut file, buffer) {
            Ok(bytes) => bytes,
            Err(_) => 0,
        },
        Err(_) => 0,
    }
}

// The bytes of a file, of which one more than are taken tells that it is too long.
fn bytes_of<'a>(
    rt: &impl Files,
    name: &'static str,
    buffer: &'a mut [u8],
) -> Result<&'a [u8], Stop> {
    let bytes = read(rt, name, buffer);
    if MAX_BYTES < bytes {
        return Err(Stop::Long(name));
    }
    Ok(&buffer[..bytes])
}

// Runs the plan over a loaded store, with as many records as the longest plan has operators. They are not
// printed.
fn run(store: &[u32], query: &[u8], plan: &[u8], list: &mut [u32]) -> Result<Traced, Stop> {
    let mut scratch = [0u32; SCRATCH_WORDS];
    let records = Lending {
        records: [Record { rows: 0, cost: 0 }; Plan::MAX_OPERATORS],
        lent: Plan::MAX_OPERATORS,
    };
    let filled = lending::run_lending(store, query, plan, true, &mut scratch, list, records);
    let answer = filled.answer;
    if answer.refusal != 0 {
        return Err(Stop::Refused(answer.refusal));
    }
    Ok(Traced {
        answer,
        width: query_file::read_query(query).query.vertices,
    })
}

fn trace(rt: &impl Files, list: &mut [u32]) -> Result<Traced, Stop> {
    let mut g = [0u8; BUFFER_BYTES];
    let mut q = [0u8; BUFFER_BYTES];
    let mut p = [0u8; BUFFER_BYTES];
    let graph = bytes_of(rt, "g.bin", &mut g)?;
    let query = bytes_of(rt, "q.bin", &mut q)?;
    let plan = bytes_of(rt, "p.bin", &mut p)?;
    let mut store = [0u32; STORE_WORDS];
    let loaded = load::load(graph, &mut store);
    if loaded.refusal != 0 {
        return Err(Stop::Refused(loaded.refusal));
    }
    run(&store, query, plan, list)
}

fn print_row(rt: &impl Print, row: &[u32]) -> io::Result<()> {
    for (i, vertex) in row.iter().enumerate() {
        if i != 0 {
            print!(rt; " ")?;
        }
        print!(rt; "{vertex}")?;
    }
    println!(rt; "")
}

// The answer, and the rows as far as the list goes.
fn print_traced(rt: &impl Print, traced: &Traced, list: &[u32]) -> io::Result<()> {
    let a = traced.answer;
    let rows = a.rows;
    let cost = a.cost;
    let build = a.build;
    let probe = a.probe;
    println!(rt; "matches {rows} cost {cost} build {build} probe {probe}")?;
    // A query that is accepted has vertices.
    for row in list.chunks_exact(traced.width.max(1)).take(rows) {
        print_row(rt, row)?;
    }
    Ok(())
}

fn main(rt: HostRuntime) -> io::Result<()> {
    let mut list = [0u32; LIST_WORDS];
    match trace(&rt, &mut list) {
        Ok(traced) => print_traced(&rt, &traced, &list),
        Err(stop) => rt.println(stop),
    }
}
