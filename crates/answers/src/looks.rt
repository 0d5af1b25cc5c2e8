//! Bodies, looked at for a script. The words are the console's, and no `Display` of the types: that can stand only with the type, in a crate of the
//! board's, and a type around each of them, made for it, would be longer than its function here.

ghost use Rattle.std.specs.Prelude.{◌≡◌, ℕ, List, [], ◌∷◌, ◌++◌, string_bytes, codes, OnOk};
ghost use Rattle.answers.specs.Spoken.{counted, selector_text, question_text, counters_numbers, answer_text, look_text, LookText};
ghost use Rattle.numbering.specs.Numbered.{command_number, energy_number, field_number};
ghost use Rattle.text.specs.Answers.{solid_pairs, text_word};

use asking::question::Question;
use asking::selector::Selector;
use look::Look;
use numbering::{Command, Energy, TextField};
use protocol::answer::Answer;
use protocol::counters::Counters;
use std::alloc::AllocError;
use text::{write_numbers, write_password, write_refusal, write_text};

/// Appends a word and numbers behind it.
fn write_counted(out: &mut String, word: &str, numbers: &[u32]) -> Result<(), AllocError>
    ensures { OnOk result (string_bytes out.new ≡ string_bytes out.old ++ counted word.now numbers.now) }
{
    out.push_str(word)?;
    write_numbers(out, numbers)?;
    Ok(())
}

fn write_selector(out: &mut String, selector: Selector) -> Result<(), AllocError>
    ensures { OnOk result (string_bytes out.new ≡ string_bytes out.old ++ selector_text selector) }
{
    match selector {
        Selector::Ping => write_counted(out, " ping", &[]),
        Selector::Counter(energy) => write_counted(out, " counter", &[u32::from(u8::from(energy))]),
        Selector::Text(field) => write_counted(out, " string", &[u32::from(u8::from(field))]),
        Selector::Parameter(parameter) => write_counted(
            out,
            " parameter",
            &[u32::from(u8::from(parameter))],
        ),
    }
}

fn write_question(out: &mut String, question: Question) -> Result<(), AllocError>
    ensures { OnOk result (string_bytes out.new ≡ string_bytes out.old ++ question_text question) }
{
    match question {
        Question::Read(selector) => write_selector(out, selector),
        Question::Switch { relay, position } => {
            write_counted(
                out,
                " relay",
                &[u32::from(u8::from(relay)), u32::from(u8::from(position))],
            )
        }
    }
}

/// Config, the ratios, the sums and the tariffs of a counter, behind its type.
fn write_counters(out: &mut String, energy: Energy, counters: &Counters) -> Result<(), AllocError>
    ensures { OnOk result (string_bytes out.new ≡ string_bytes out.old ++ counted (codes " counter") (energy_number energy ∷ counters_numbers counters.now)) }
{
    let config = u32::from(counters.config);
    let voltage = u32::from(counters.voltage_ratio);
    let current = u32::from(counters.current_ratio);
    let [t1, t2, t3, t4] = counters.tariffs;
    let numbers = [
        u32::from(u8::from(energy)),
        config,
        voltage,
        current,
        counters.full,
        counters.in_use,
        t1,
        t2,
        t3,
        t4,
    ];
    write_counted(out, " counter", &numbers)
}

fn write_answer(out: &mut String, answer: &Answer<'_>) -> Result<(), AllocError>
    ensures { OnOk result (string_bytes out.new ≡ string_bytes out.old ++ answer_text answer.now) }
{
    match answer {
        Answer::Ping { version, info } => write_counted(
            out,
            " ping",
            &[u32::from(*version), u32::from(*info)],
        ),
        Answer::Counter { energy, counters } => write_counters(out, *energy, counters),
        Answer::Text { field, text } => write_string(out, *field, text),
        Answer::Parameter { parameter, value } => {
            write_counted(
                out,
                " parameter",
                &[u32::from(u8::from(*parameter)), u32::from(*value)],
            )
        }
        Answer::Relay => write_counted(out, " relay", &[]),
    }
}

/// A subscriber string behind its field.
fn write_string(out: &mut String, field: TextField, text: &[u8]) -> Result<(), AllocError>
    ensures { OnOk result (string_bytes out.new ≡ string_bytes out.old ++ (counted (codes " string") (field_number field ∷ []) ++ 32 ∷ text_word text.now)) }
{
    write_counted(out, " string", &[u32::from(u8::from(field))])?;
    out.push_str(" ")?;
    write_text(out, text)
}

/// What is asked, behind who is asked, who asks and the password.
fn write_asked(
    out: &mut String,
    ends: [u16; 2],
    password: [u8; 4],
    question: Question,
) -> Result<(), AllocError>
    ensures { OnOk result (string_bytes out.new ≡ string_bytes out.old ++ (counted (codes "question") ends ++ (32 ∷ (solid_pairs password ++ question_text question)))) }
{
    let [to, from] = ends;
    write_counted(out, "question", &[u32::from(to), u32::from(from)])?;
    out.push_str(" ")?;
    write_password(out, password)?;
    write_question(out, question)
}

/// What is answered, behind who is answered, who answers and three statuses.
fn write_answered(
    out: &mut String,
    ends: [u16; 2],
    status: [u8; 3],
    answer: &Answer<'_>,
) -> Result<(), AllocError>
    ensures { OnOk result (string_bytes out.new ≡ string_bytes out.old ++ (counted (codes "answer") (ends ++ status) ++ answer_text answer.now)) }
{
    let [to, from] = ends;
    let [s1, s2, s3] = status;
    write_counted(
        out,
        "answer",
        &[
            u32::from(to),
            u32::from(from),
            u32::from(s1),
            u32::from(s2),
            u32::from(s3),
        ],
    )?;
    write_answer(out, answer)
}

/// The command complained of and four statuses, behind who is told and who complains.
fn write_complaint(
    out: &mut String,
    ends: [u16; 2],
    command: Command,
    status: [u8; 4],
) -> Result<(), AllocError>
    ensures { OnOk result (string_bytes out.new ≡ string_bytes out.old ++ counted (codes "complaint") (ends ++ command_number command ∷ status)) }
{
    let [to, from] = ends;
    let [s1, s2, s3, s4] = status;
    let numbers = [
        u32::from(to),
        u32::from(from),
        u32::from(u8::from(command)),
        u32::from(s1),
        u32::from(s2),
        u32::from(s3),
        u32::from(s4),
    ];
    write_counted(out, "complaint", &numbers)
}

fn write_look(out: &mut String, look: &Look<'_>) -> Result<(), AllocError>
    ensures { OnOk result (string_bytes out.new ≡ string_bytes out.old ++ look_text look.now) }
{
    match look {
        Look::Question {
            destination,
            source,
            password,
            question,
        } => { write_asked(out, [*destination, *source], *password, *question) }
        Look::Answer {
            destination,
            source,
            status,
            answer,
        } => { write_answered(out, [*destination, *source], *status, answer) }
        Look::Complaint {
            destination,
            source,
            command,
            status,
        } => { write_complaint(out, [*destination, *source], *command, *status) }
    }
}

/// Appends what look answers for these bytes.
pub(crate) fn write_looked(out: &mut String, body: &[u8]) -> Result<(), AllocError>
    ensures { OnOk result ((t : List ℕ) × LookText body.now t × (string_bytes out.new ≡ string_bytes out.old ++ t)) }
{
    match Look::read(body) {
        Ok(look) => write_look(out, &look),
        Err(refusal) => write_refusal(out, u8::from(refusal)),
    }
}
