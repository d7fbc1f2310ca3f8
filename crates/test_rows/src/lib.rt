//! Tests as data: rows of plain text, each a case with the answer that it wants, and the report on them.
//!
//! A file is a table. Blank lines part its rows, and a line that begins with `#` is a comment. The first row is the
//! table's head: `table` names it, and `call` says what is called for each row that doesn't say so itself. A row may have
//! just the keys that the head has, where each says what it is for.
//!
//! A line `key: text` adds the text to what the key says, and `key| text` adds it as a line, its LF included. In a text
//! `\r`, `\n`, `\t`, `\0`, `\s` (a space), `\\`, `\}` and `\x80` stand for one byte, and `\{99*A: b\r\n}` is 99 times what
//! stands after the star.
//!
//! A row is good where its answer is just what `want` says, or, where memory may be refused, what `or` says.
//!
//! A program of rows gives `judge_files` a `Driver`, which runs the calls that its rows name.
//!
//! A row may have wires, each of which gives and takes what the row says, by letters that go through many values. The letters `n`, `m`
//! and `s` stand for numbers and `e` for an answer of a wire. A row lists their values (`n: 0-129`, `e: ended fault`), and `put_runs` has
//! a `Player` run it once for each choice of them. `n` is a place: runs at places in a row with equal reports are reported once. All
//! choices of the other letters have to give equal reports. What such a row, a `Scene`, doesn't say its table's head may say, and a text
//! that is `@NAME` is that of another key.
#![tactic(auto)]

mod answer;
mod judging;
mod memory;
mod part_iterator;
mod plans;
mod random;
mod report;
mod row;
mod runs;
mod scene;
mod shown;
mod table;
mod text;
mod values;
mod wires;
mod words;

pub use answer::{
    hex_letter, put_all, put_count, put_decimal, put_escaped, put_fault, put_line, put_number,
    put_shown, put_truth,
};
pub use judging::{Driver, judge_files};
pub use part_iterator::{Parts, lines_of, parts_of, words_of};
pub use plans::{event_of, history, plan_of, point_of};
pub use random::Random;
pub use report::Report;
pub use row::{Row, call_of, number, says};
pub use runs::{Player, put_runs};
pub use scene::Scene;
pub use shown::{put_flag, put_text, put_word};
pub use std::alloc::AllocError as NoMemory;
pub use table::{Table, read_table};
pub use values::{Values, number_by};
pub use wires::{answers, wire};
pub use words::{count_after, has_word, index_of, is, parts};
