//! Makes the public calls that may be refused memory, each until it is not, and says of each whether its answer is the wanted one
//! and whether what stood before a refusal stood after it. `bench/refusals` runs it with each request refused in turn: what it
//! says is the same then.
#![tactic(auto)]

mod board;
mod off;
mod rows;
mod server;
mod texts;

use off::Off;
use std::alloc::Global;
use std::io;
use std::sync::Wait;

/// What is called.
#[derive(Clone, Copy)]
enum Call {
    Logical,
    Form,
    Prepare,
    Expand,
    Shape,
    Type,
    Uses,
    Parallel,
    Functions,
    Aliases,
    Scopes,
    Project,
    Graph,
    Job,
    Check,
    Write,
    Words,
    Board,
    Server,
}

/// All calls, with what each is called in the output.
const CALLS: [(&str, Call); 19] = [
    ("logical", Call::Logical),
    ("form", Call::Form),
    ("prepare", Call::Prepare),
    ("expand", Call::Expand),
    ("shape", Call::Shape),
    ("type_unit", Call::Type),
    ("uses_of", Call::Uses),
    ("par_faults", Call::Parallel),
    ("function_faults", Call::Functions),
    ("alias_faults", Call::Aliases),
    ("Scopes::enter", Call::Scopes),
    ("Project::set", Call::Project),
    ("Graph::of", Call::Graph),
    ("Job::new", Call::Job),
    ("check", Call::Check),
    ("write_diag", Call::Write),
    ("read_words", Call::Words),
    ("Board", Call::Board),
    ("Server", Call::Server),
];

/// More trials than one or two refusals spoil.
const TRIALS: u32 = 5;

fn main(rt: HostRuntime) -> io::Result<()> {
    for (name, call) in CALLS {
        println!(rt; "{name}: {}", tried(&rt, rt.alloc(), call))?;
    }
    Ok(())
}

/// What comes of a call that is made until memory is not refused.
fn tried<R: Wait>(rt: &R, alloc: Global, call: Call) -> &'static str {
    for _ in 0..TRIALS {
        match once(rt, alloc, call) {
            Ok(()) => return "as wanted",
            Err(Off::Differs) => return "differs",
            Err(Off::Memory) => {}
        }
    }
    "refused"
}

/// Makes a call on what it needs, all of it made anew.
fn once<R: Wait>(rt: &R, alloc: Global, call: Call) -> Result<(), Off> {
    match call {
        Call::Logical => texts::logical_lines(alloc),
        Call::Form => texts::one_form(alloc),
        Call::Prepare => texts::prepared(alloc),
        Call::Expand => texts::expanded(alloc),
        Call::Shape => texts::shaped(alloc),
        Call::Type => texts::typed(alloc),
        Call::Uses => texts::uses(alloc),
        Call::Parallel => texts::parallel(alloc),
        Call::Functions => texts::functions(alloc),
        Call::Aliases => texts::aliases(alloc),
        Call::Scopes => rows::entered(alloc),
        Call::Project => rows::set(alloc),
        Call::Graph => rows::circle(alloc),
        Call::Job => rows::job(alloc),
        Call::Check => rows::checked(alloc),
        Call::Write => rows::written(alloc),
        Call::Words => rows::words(alloc),
        Call::Board => board::events(alloc),
        Call::Server => server::events(rt, alloc),
    }
}
