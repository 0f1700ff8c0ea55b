//! How answers are written.
use crate::answers::Answer;
use std::io;
use std::io::Write;

fn write_words<W: Write>(output: &mut W, words: &[u64]) -> io::Result<()> {
    write!(output, " {}", words.len())?;
    for word in words {
        write!(output, " {word}")?;
    }
    Ok(())
}

// What a call returned, after its words.
fn write_answer<W: Write>(output: &mut W, answer: &Answer) -> io::Result<()> {
    match answer {
        Answer::Done => write!(output, " ok"),
        Answer::Key(key) => write!(output, " {key}"),
        Answer::Value(value) => write_words(output, value.words()),
        Answer::Page(page) => write!(output, " {page}"),
        Answer::Live(next, value) => {
            write!(output, " {} then {}", next.key, next.behind)?;
            write_words(output, value.words())
        }
        Answer::Held(next) => {
            let held = if next.hold.is_some() {
                "held"
            } else {
                "crowded"
            };
            write!(output, " {} then {} {held}", next.key, next.behind)
        }
        Answer::NoKey => write!(output, " none"),
        Answer::Keys(keys) => write_words(output, keys.as_slice()),
        Answer::Refused(why) => write!(output, " refused {} {}", why.number(), why.name()),
    }
}

/// Writes the line of a call: its pass and command, and what it returned. A call on a name whose insert was refused is
/// `unbound`.
pub fn write_line<W: Write>(
    output: &mut W,
    words: &[&[u8]],
    answer: &Option<Answer>,
) -> io::Result<()> {
    let [pass, command, ..] = words else {
        return Ok(());
    };
    output.write_all(pass)?;
    output.write_all(b" ")?;
    output.write_all(command)?;
    match answer {
        Some(answer) => write_answer(output, answer)?,
        None => output.write_all(b" unbound")?,
    }
    output.write_all(b"\n")?;
    output.flush()
}
