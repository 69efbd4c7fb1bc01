//! What the words of a build name: its files, its texts, and where the image is to stand.
ghost use Rattle.std.specs.Prelude.{◌≡◌, ◌++◌, ◌∷◌, [], List, ℕ, Some, IfOk, IsTrue, OnOk, is_some, map, option_map};
ghost use Rattle.command_plans.specs.Prelude.{Means, each, if_given};
ghost use Rattle.tool_words.specs.declared.command.Given.TheVariants.{File};
ghost use Rattle.uki_parts.specs.Names.{fixed_name, padded_name, read_name};
ghost use Rattle.image_build.specs.Building.{clean, extra_part, given_list, named_as, named_files, named_part, part_named, section_name, section_of, source_of, sources_of, wanted_parts, with_parts};
ghost use Rattle.image_build.specs.Offers.{offered, offered_part};

use crate::source::{BuildSources, PartSources, Source};
use boot_base::{Bytes, Refusal, Text};
use command_plans::{WordError, path_in, push};
use std::alloc::{AllocError, Global};
use tool_words::{BuildWords, Given, inline_or_file};
use uki_parts::{PartKind, SectionName, clean_cmdline};

/// What the words may give of a part.
#[derive(Clone, Copy)]
enum Offer<'a> {
    /// A text or a file.
    One(&'a Option<Given>),
    /// A command line: whitespace of a text is cleaned.
    Line(&'a Option<Given>),
    /// Files, one behind the other.
    Files(&'a [Text]),
}

fn bad_name(alloc: Global, text: &str) -> Result<WordError, AllocError>
    ensures { IfOk result (λ word_error. word_error ≡ WordError.Refused (Refusal.BadSectionName text.now)) }
{
    let text = Text::of(alloc, text)?;
    Ok(WordError::Refused(Refusal::BadSectionName { text }))
}

fn section_name(alloc: Global, text: &str) -> Result<SectionName, WordError>
    ensures { Means (λ name. name) result (section_name text.now (read_name text.now)) }
{
    match SectionName::read(text) {
        Some(name) => Ok(name),
        None => Err(bad_name(alloc, text)?),
    }
}

// The name in a value of `--section=`, and the text or the path behind its first colon.
fn section_of(alloc: Global, value: &str) -> Result<(SectionName, Given), WordError>
    ensures { Means (λ section. section) result (section_of value.now) }
{
    match value.split_once(':') {
        None => Err(bad_name(alloc, value)?),
        Some((name, source)) => {
            let name = section_name(alloc, name)?;
            let source = inline_or_file(alloc, source)?;
            Ok((name, source))
        }
    }
}

fn sections_of(alloc: Global, values: &[Text]) -> Result<Vec<(SectionName, Given)>, WordError>
    ensures { Means (λ sections. sections.items) result (each section_of values.now) }
{
    let mut sections = Vec::new(alloc);
    for value in values {
        let section = section_of(alloc, value.as_str())?;
        push(&mut sections, section)?;
    }
    Ok(sections)
}

fn text_source(alloc: Global, text: &str) -> Result<Source, AllocError>
    ensures { IfOk result (λ source. source ≡ Source.Said text.now) }
{
    Ok(Source::Said(Bytes::of(alloc, text.as_bytes())?))
}

fn file_source(alloc: Global, word: &str) -> Result<Source, WordError>
    ensures { Means (λ source. source) result (source_of (File word.now)) }
{
    let path = path_in(alloc, word)?;
    Ok(Source::At(path))
}

fn source_of(alloc: Global, given: &Given) -> Result<Source, WordError>
    ensures { Means (λ source. source) result (source_of given.now) }
{
    match given {
        Given::Inline(text) => Ok(text_source(alloc, text.as_str())?),
        Given::File(word) => file_source(alloc, word.as_str()),
    }
}

// The source of the command line: whitespace of a text is cleaned.
fn cmdline_source(alloc: Global, given: &Given) -> Result<Source, WordError>
    ensures { Means (λ source. source) result (source_of (clean given.now)) }
{
    match given {
        Given::Inline(text) => {
            let line = clean_cmdline(alloc, text.as_str())?;
            Ok(Source::Said(Bytes::from(line)))
        }
        Given::File(word) => file_source(alloc, word.as_str()),
    }
}

fn one_source(alloc: Global, source: Source) -> Result<Vec<Source>, AllocError>
    ensures { IfOk result (λ sources. sources.items ≡ source ∷ []) }
{
    let mut sources = Vec::new(alloc);
    push(&mut sources, source)?;
    Ok(sources)
}

fn given_sources(alloc: Global, given: &Option<Given>) -> Result<Vec<Source>, WordError>
    ensures { Means (λ sources. sources.items) result (each source_of (given_list given.now)) }
{
    match given {
        None => Ok(Vec::new(alloc)),
        Some(given) => {
            let source = source_of(alloc, given)?;
            Ok(one_source(alloc, source)?)
        }
    }
}

fn line_sources(alloc: Global, given: &Option<Given>) -> Result<Vec<Source>, WordError>
    ensures { Means (λ sources. sources.items) result (each source_of (given_list (option_map clean given.now))) }
{
    match given {
        None => Ok(Vec::new(alloc)),
        Some(given) => {
            let source = cmdline_source(alloc, given)?;
            Ok(one_source(alloc, source)?)
        }
    }
}

fn file_sources(alloc: Global, words: &[Text]) -> Result<Vec<Source>, WordError>
    ensures { Means (λ sources. sources.items) result (each (λ word. source_of (File word)) words.now) }
{
    let mut sources = Vec::new(alloc);
    for word in words {
        let source = file_source(alloc, word.as_str())?;
        push(&mut sources, source)?;
    }
    Ok(sources)
}

// The sources of what is given of a part, in their order.
fn offered_sources(alloc: Global, offer: &Offer) -> Result<Vec<Source>, WordError>
    ensures { Means (λ sources. sources.items) result (each source_of (offered offer.now)) }
{
    match offer {
        Offer::One(given) => given_sources(alloc, given),
        Offer::Line(given) => line_sources(alloc, given),
        Offer::Files(words) => file_sources(alloc, words),
    }
}

// Puts the part of that kind behind the others.
fn push_fixed(
    kind: PartKind,
    sources: Vec<Source>,
    parts: &mut Vec<PartSources>,
) -> Result<(), AllocError>
    requires { IsTrue (is_some (fixed_name kind)) }
    ensures { OnOk result ((name : List ℕ) → fixed_name kind ≡ Some (padded_name name)
        → map part_named parts.new.items ≡ map part_named parts.old.items
        ++ named_part kind (padded_name name) sources.items ∷ []) }
{
    let name = SectionName::of(kind).unwrap();
    push(
        parts,
        PartSources {
            kind,
            name,
            sources,
        },
    )
}

// Puts the part of a row behind the others, where something is given of it.
fn append_offered(
    alloc: Global,
    row: &(PartKind, Offer),
    parts: &mut Vec<PartSources>,
) -> Result<(), WordError>
    requires { IsTrue (is_some (fixed_name row.now.0)) }
    ensures { Means (λ _. map part_named parts.new.items) result
        (with_parts (map part_named parts.old.items) (offered_part row.now)) }
{
    let sources = offered_sources(alloc, &row.1)?;
    if sources.is_empty() {
        return Ok(());
    }
    push_fixed(row.0, sources, parts)?;
    Ok(())
}

// Puts the part of a section of the user's own behind the others.
fn append_section(
    alloc: Global,
    section: &(SectionName, Given),
    parts: &mut Vec<PartSources>,
) -> Result<(), WordError>
    ensures { Means (λ _. map part_named parts.new.items) result
        (with_parts (map part_named parts.old.items) (extra_part section.now ∷ [])) }
{
    let source = source_of(alloc, &section.1)?;
    let sources = one_source(alloc, source)?;
    let part = PartSources {
        kind: PartKind::Extra,
        name: section.0,
        sources,
    };
    push(parts, part)?;
    Ok(())
}

// Puts the parts of the sections of the user's own behind the others.
fn append_sections(
    alloc: Global,
    sections: &[(SectionName, Given)],
    parts: &mut Vec<PartSources>,
) -> Result<(), WordError>
    ensures { Means (λ _. map part_named parts.new.items) result
        (with_parts (map part_named parts.old.items) (map extra_part sections.now)) }
{
    for section in sections {
        append_section(alloc, section, parts)?;
    }
    Ok(())
}

// The parts but for the SBAT text and the kernel, in append order.
fn parts_of(
    alloc: Global,
    words: &BuildWords,
    sections: &[(SectionName, Given)],
) -> Result<Vec<PartSources>, WordError>
    ensures { Means (λ parts. map part_named parts.items) result
        (each sources_of (wanted_parts words.now sections.now)) }
{
    let given = &words.parts;
    let rows = [
        (PartKind::Osrel, Offer::One(&given.osrel)),
        (PartKind::Cmdline, Offer::Line(&given.cmdline)),
        (PartKind::Dtb, Offer::One(&given.dtb)),
        (PartKind::Uname, Offer::One(&given.uname)),
        (PartKind::Splash, Offer::One(&given.splash)),
        (PartKind::Pcrpkey, Offer::One(&given.pcrpkey)),
        (PartKind::Initrd, Offer::Files(words.initrds.as_slice())),
        (PartKind::Ucode, Offer::One(&given.ucode)),
    ];
    let mut parts = Vec::new(alloc);
    for row in &rows {
        append_offered(alloc, row, &mut parts)?;
    }
    append_sections(alloc, sections, &mut parts)?;
    Ok(parts)
}

fn optional_source(alloc: Global, given: &Option<Given>) -> Result<Option<Source>, WordError>
    ensures { Means (λ source. source) result (if_given source_of given.now) }
{
    match given {
        None => Ok(None),
        Some(given) => Ok(Some(source_of(alloc, given)?)),
    }
}

/// The files and texts that the words of a build name, and the path of its output, or the first refusal: of a value of
/// `--section=`, and then of a word that is no path.
pub fn build_sources(alloc: Global, words: &BuildWords) -> Result<BuildSources, WordError>
    ensures means { Means named_as result (named_files words.now) }
{
    let sections = sections_of(alloc, words.sections.as_slice())?;
    let stub = path_in(alloc, words.stub.as_str())?;
    let linux = path_in(alloc, words.linux.as_str())?;
    let parts = parts_of(alloc, words, &sections)?;
    let sbat = optional_source(alloc, &words.parts.sbat)?;
    let output = path_in(alloc, words.output.as_str())?;
    Ok(BuildSources {
        stub,
        linux,
        parts,
        sbat,
        output,
    })
}
