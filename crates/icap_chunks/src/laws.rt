//! Laws of chunked bodies: each is the contract of a function that does nothing.
ghost use Rattle.std.specs.Prelude.{◌≡◌, ℕ, ◌+◌, ◌<◌, ◌++◌, ◌↔◌, Bool, List, length, Some, None};
ghost use Rattle.adapt_bytes.specs.declared.limits.TheConstants.{COUNT_LIMIT};
ghost use Rattle.icap_chunks.specs.declared.fault.ChunkFault.{ChunkFault as Fault};
ghost use Rattle.icap_chunks.specs.declared.pieces.Outcome.{Outcome};
ghost use Rattle.icap_chunks.specs.declared.pieces.Outcome.TheVariants.{More};
ghost use Rattle.icap_chunks.specs.declared.reader.ChunkReader.{ChunkReader as Reader};
ghost use Rattle.icap_chunks.specs.Machine.{start, run, body_of, end_of, fault_of, EndsAt, HasRead};
ghost use Rattle.icap_chunks.specs.Grammar.{IsChunked, Chunks, chunk_head, last_chunk, crlf};
ghost use Rattle.icap_chunks.specs.Faults.{Breaks};
ghost use Rattle.icap_chunks.specs.Reading.{IsReading};

/// A reader ends exactly where a body of the grammar ends, and has found its bytes.
pub fn reads_the_grammar()
    ensures { (text body : List ℕ) (ieof : Bool) → (EndsAt text ieof × (body_of start text ≡ body)) ↔ IsChunked text body ieof }
{}

/// A reader returns a fault exactly where the grammar is broken in that way, at the first byte that breaks it.
pub fn answers_the_faults()
    ensures { (text body : List ℕ) (fault : Fault) → ((fault_of (run start text) ≡ Some fault) × (body_of start text ≡ body)) ↔ Breaks text body fault }
{}

/// A reader stands for the text that it has read: at its end for a whole body, at a fault for a text that breaks the grammar
/// in that way, and else for a prefix of a body.
pub fn stands_for_its_text()
    ensures ended { (text body : List ℕ) (reader : Reader) (ieof : Bool) → HasRead text body reader → end_of reader ≡ Some ieof → IsChunked text body ieof }
    ensures broken { (text body : List ℕ) (reader : Reader) (fault : Fault) → HasRead text body reader → fault_of reader ≡ Some fault → Breaks text body fault }
    ensures more { (text body : List ℕ) (reader : Reader) → HasRead text body reader → end_of reader ≡ None → fault_of reader ≡ None → IsReading text body More }
{}

/// What is written is read back: a chunk with its bytes, and then the end.
pub fn reads_what_it_writes()
    ensures chunk { (front body bytes : List ℕ) → Chunks front body → 0 < length bytes → length body + length bytes < COUNT_LIMIT
        → Chunks (front ++ (chunk_head (length bytes) ++ (bytes ++ crlf))) (body ++ bytes) }
    ensures last { (front body : List ℕ) (ieof : Bool) → Chunks front body → IsChunked (front ++ last_chunk ieof) body ieof }
{}

/// A whole body has one reading.
pub fn reads_one_way()
    ensures { (text a b : List ℕ) (i j : Bool) → IsChunked text a i → IsChunked text b j → (a ≡ b) × (i ≡ j) }
{}

/// Each text has a reading: a body and what is left over, a fault, or a prefix of a body.
pub fn has_a_reading()
    ensures { (text : List ℕ) → (body : List ℕ) × (outcome : Outcome) × IsReading text body outcome }
{}

/// Each text has at most one reading: a body and what is left over, a fault, or a prefix of a body.
pub fn has_one_reading()
    ensures { (text a b : List ℕ) (p q : Outcome) → IsReading text a p → IsReading text b q → (a ≡ b) × (p ≡ q) }
{}
