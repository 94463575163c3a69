//! What is told of a text, written.

ghost use Rattle.std.specs.Prelude.{◌++◌, ◌∷◌, [], OnOk, OnErr};
ghost use Rattle.std.specs.Io.KnownBytes.{Appends};
ghost use Rattle.tk_io.specs.Faults.{HasCause};
ghost use Rattle.tk_io.specs.Whole.{TookFront};
ghost use Rattle.tk_io.specs.Pieces.{Puts};
ghost use Rattle.topk_base.specs.Lines.{unlines};
ghost use Rattle.bundle_text.specs.Bundle.{content, section, bundle_lines};
ghost use Rattle.cert_judge.specs.Text.{refused_line, named, beaten_line, told_text};
ghost use Rattle.cert_judge.specs.Refusing.{IsVerdict};

use super::judgement::Judgement;
use super::refusal::{RefusalLine, refusal_of};
use bundle_text::{Bundle, put_rows};
use ranked_list::MemList;
use tk_io::{Failed, Put, Sink, Writer};

/// Puts the line of a refusal behind the bytes that wait.
fn put_refused<P: Put>(out: &mut P, name: &[u8], fields: &[u64])
    ensures { Puts (P.at out.old) (P.at out.new)
        (refused_line name.now fields.now ++ 10 ∷ []) }
{
    out.put(b"refused ");
    out.put(name);
    for field in fields {
        out.put(b" ");
        out.put_number(*field);
    }
    out.put(b"\n");
}

/// Puts a word and its number behind the bytes that wait.
fn put_named<P: Put>(out: &mut P, word: &[u8], number: u64)
    ensures { Puts (P.at out.old) (P.at out.new)
        (named word.now number) }
{
    out.put(word);
    out.put_number(number);
}

/// Puts the first line of a beaten answer behind the bytes that wait.
fn put_beaten<P: Put>(out: &mut P, inside: u32, low: u64, outside: u32, high: u64)
    ensures { Puts (P.at out.old) (P.at out.new)
        (beaten_line inside low outside high ++ 10 ∷ []) }
{
    put_named(out, b"beaten inside ", u64::from(inside));
    put_named(out, b" low ", low);
    put_named(out, b" outside ", u64::from(outside));
    put_named(out, b" high ", high);
    out.put(b"\n");
}

/// Puts the lines of a list behind the bytes that wait.
fn put_section<P: Put>(out: &mut P, name: &[u8], rows: &MemList)
    ensures { Puts (P.at out.old) (P.at out.new)
        (unlines (section name.now rows.now)) }
{
    out.put(b"list ");
    out.put(name);
    out.put(b"\n");
    put_rows(out, rows);
}

/// Puts the lines of a bundle behind the bytes that wait.
fn put_bundle<P: Put>(out: &mut P, bundle: &Bundle)
    ensures { Puts (P.at out.old) (P.at out.new)
        (unlines (bundle_lines (content bundle.now))) }
{
    let lists = bundle.names.len().min(bundle.lists.len());
    for place in 0..lists {
        put_section(out, &bundle.names[place], &bundle.lists[place]);
    }
    out.put(b"query ");
    out.put(&bundle.query);
    out.put(b"\n");
}

/// Puts whether the answer is fixed behind the bytes that wait: `fixes`, or the lines of a beaten answer.
fn put_judged<P: Put>(out: &mut P, told: &Judgement)
    requires { IsVerdict told.now }
    ensures { Puts (P.at out.old) (P.at out.new)
        (told_text told.now) }
{
    match told {
        Judgement::Beaten {
            inside,
            outside,
            low,
            high,
            counter,
        } => {
            put_beaten(out, *inside, *low, *outside, *high);
            put_bundle(out, counter);
        }
        _ => out.put(b"fixes\n"),
    }
}

/// Puts what is told behind the bytes that wait.
fn put_told<P: Put>(out: &mut P, told: &Judgement)
    ensures { Puts (P.at out.old) (P.at out.new)
        (told_text told.now) }
{
    match refusal_of(told) {
        Some(RefusalLine::One(name, fields)) => put_refused(out, name, &fields),
        Some(RefusalLine::Two(name, fields)) => put_refused(out, name, &fields),
        None => put_judged(out, told),
    }
}

/// Writes what is told, in pieces of `tk_io::PIECE` bytes. Takes no memory.
pub fn write_told<K: Sink>(out: &mut K, told: &Judgement) -> Result<(), Failed>
    ensures whole { OnOk result (Appends (K.held out.old) (K.held out.new) (told_text told.now)) }
    ensures front { OnErr result (TookFront (K.held out.old) (K.held out.new) (told_text told.now)) }
    ensures cause { HasCause (K.faults out.old) (K.faults out.new) result }
{
    let mut writer = Writer::make(out);
    put_told(&mut writer, told);
    writer.end()
}
