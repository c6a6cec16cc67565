//! Answers standard input as `firm` does, and after the reply to each round writes why, in comment lines: what the
//! placement costs, the rents that show that no legal placement costs less, and what other choices would cost the tasks
//! that changed or wait.
//!
//! The words, a reader and two sinks, for replies and for reasons, and the exit status (`specs/CommandLine.antt`,
//! `Program.antt`). Which words name what, `clap` defines.
//!
//! # What is proved
//!
//! `run` ends in one of four ways (`Exits`). The words ask for the rounds of a service (`AskFor`): they name one file
//! to open with, and a tenant and a task, if these are given, by names.
//!
//! - With status 0 all of the file that the words name was a roster, or a state, and the sink of replies got what
//!   `firm` writes.
//! - With a fault's status the file was refused, and nothing was read; or the service stopped; or all replies were
//!   written, and the status is that of a failed write.
//!
//! The words ask for none: they name no file, or two, or a tenant or a task that is no name; or they were answered as
//! firm_program has it. Then nothing was read. A failed write to the sink of faults changes no status. This contract
//! doesn't see the sink of reasons, as that of the service says nothing of its watcher: that runs which wrote all
//! replies end with a failed write just where reasons were lost is tested (`tests/explain.py`). Nor does it say what
//! other options do.
//!
//! With `--rows` what is written for a round begins with the rows of its tenant's book before it, in the words of a
//! state (`specs/RoundRows.antt`): the service shows the watcher that book, the watcher keeps its text (`awaits` of
//! `Watcher`) and writes it in front of the reasons (private `after_round`), and takes its case from the same rows.
//!
//! A `Market` is a round that is explained: by its ghost fields its placement is legal, the low and the high rents show
//! it to be least, and no low rent is above the high one. `Market::of` has `firm_rents` check all that, else the
//! reasons are the line `# NOT SHOWN to be least`. Printed numbers rest on these contracts (claims:
//! docs/results/claims.md, Rents):
//!
//! - the cost, payments and gains: `shows_least`
//! - loads, moves, preemptions, waits, remote: `parts_of`
//! - low and high rents; those of `--why`: `low_rents`, `high_rents`; `rents_for`
//! - what a task's choice costs it, and its rents: `Case::cost_of_choice`, `Rents::of_choice`
//! - `at least N more`; the choices of `--why`: private `Market::more`; `more_by`, from `excess`
//! - the best other machine: private `best_machine`, from `Nearest::machine`
//! - what one more machine saves: `saved_by_machine`
//! - that no placement of the same cost comes before: `is_ladder`
//! - the excess of a placement with another choice, `if T on M: N more`: `Case::is_legal`, `Case::cost_of`
//!
//! The rents of `--why` are checked as well; if they fail, `# NOT SHOWN to be least by T's rents` replaces that task's
//! lines. If `is_ladder` refuses the ladder, or there was none, the last line is `# first: not shown
//! here`; a choice without a witness has no line. No contract covers the order and the words of
//! the lines, the commonest rent, the least and the greatest number of a crowd, which task decided a tie, the text of a
//! ladder, and that case and rows are of one round.
//!
//! # How it works
//!
//! `explainer` is the watcher that `firm_table::serve_watched_from` shows each round. It reads the case from the rows
//! before a round (`Case::of`) and the placement from those after it (`placement_of`), so the round is solved once.
//! `choices` finds the best other machine of each task that changes or waits, in a pass over the machines for each gap
//! between a low and a high rent.
//!
//! The reasons are written on a `Page`, which remembers whether memory was refused: writing on it returns nothing,
//! and the watcher checks once, before it writes the page out.
//!
//! `ladder` parts the machines and waiting into `groups`, by the moves that cost nothing more (`moves`), until each
//! choice that is better for a task stands lower than what the task has. Of a group in which one is left, `leaving`
//! takes off the places that no task leaves from the first such task on; if there are none, the group is parted into
//! those places that reach one another by choices of later tasks (`parts`), by how high each has to stand (`heights`).
//!
//! `witness` follows, for each choice of `--why`, moves that cost nothing by the task's own rents to what the task has.
//!
//! # Measuring
//!
//! `firm_explain measure --roster FILE`, or with `--state FILE`, answers on one thread without reasons. Its words don't
//! come to `run`. It is proved safe, and to end; no contract says what it writes.
//!
//! ```sh
//! cd crates/firm_explain/measure/data
//! firm_explain measure --roster roster.csv < ../stdin             # answers as firm does, without workers
//! firm_explain measure --counts --roster roster.csv < ../stdin    # the same, and then a line for each round
//! firm_explain measure --search --roster roster.csv < ../stdin    # tenants' lines alone, rounds without proposals
//! ```
//!
//! A round's line, as `alpha 2 29 0`, has the tenant's name, the round's path searches, their looks, and the looks of
//! its proposal and its check. For these lines each tenant that the service opens with, but none that a line admits,
//! answers its own lines once more (`replay`). With `--counts` or `--search` the whole input is read first.
#![tactic(auto)]

mod choices;
mod cost_line;
mod crowds;
mod explainer;
mod groups;
mod heights;
mod ladder;
mod leaving;
mod market;
mod measure;
mod moves;
mod numbers;
mod options;
mod order_line;
mod page;
mod parts;
mod program;
mod reasons;
mod replay;
mod rows;
mod why;
mod witness;

use firm_program::{arguments, refuse_words};
use firm_text::Bytes;
use measure::{MEASURE, measure};
use program::NAME;
pub use program::{Sinks, run};
use std::process::ExitCode;

fn main(rt: HostRuntime) -> ExitCode {
    // None of them holds bytes back, so what goes to standard output appears there in the order in which it is written.
    let mut sinks = Sinks {
        replies: Bytes::new(rt.stdout()),
        reasons: Bytes::new(rt.stdout()),
        faults: Bytes::new(rt.stderr()),
    };
    let words = match arguments(&rt) {
        Ok(words) => words,
        Err(error) => return ExitCode::from(refuse_words(NAME, &error, &mut sinks.faults)),
    };
    if words.get(1).is_some_and(|word| word.as_str() == MEASURE) {
        return ExitCode::from(measure(&rt, &words[2..], &mut sinks));
    }
    let mut reader = Bytes::new(rt.stdin());
    ExitCode::from(run(&rt, rt.alloc(), words.as_slice(), &mut reader, &mut sinks))
}
