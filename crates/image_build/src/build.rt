//! `ukify build`: the plan of what its words mean.
ghost use Rattle.std.specs.Prelude.{◌≡◌, ◌≤◌, length, Bool, Err, IfErr, IfOk, IsTrue, Ok, Result, Some, flat_map};
ghost use Rattle.boot_base.specs.Paths.{Path};
ghost use Rattle.boot_base.specs.declared.refusal.Refusal.{Refusal};
ghost use Rattle.boot_machine.specs.Prelude.{Counts, Files, Looks, State, TakesAtMost, contents, seen};
ghost use Rattle.command_plans.specs.Prelude.{CountsRunError, CountsReadError, Plans, Says, ReadErrorFor, making_length, PlansWordError};
ghost use Rattle.image_writer.specs.Sourced.{IsSourced, planned_image};
ghost use Rattle.boot_base.specs.Names.{shown_byte};
ghost use Rattle.command_plans.specs.declared.word_error.WordError.TheVariants as word_errors;
ghost use Rattle.image_build.specs.Building.{AreNamed, BuiltImage, build_answer, build_named, build_of, builder_refusal, named_as, named_files, built_answer, built_line, built_text, image_of};
ghost use Rattle.image_build.specs.Imaged.{Images};
ghost use Rattle.image_build.specs.Planning.{built_as, built_length, IsPlannable, IsPlannedOn, measuring_length, planning_length};
ghost use Rattle.image_build.specs.Reads.{BuiltHasSizes, material_as, reading_length};
ghost use Rattle.pe_reader.specs.Prelude.{pe_of, headers_of};
ghost use Rattle.uki_parts.specs.Names.{name_bytes};

use crate::build_plan::{StubFile, plan_image_of};
use crate::build_reads::{BuildParts, read_build};
use crate::build_values::planned_values;
use crate::build_words::build_sources;
use crate::planned::PlannedBuild;
use crate::source::BuildSources;
use boot_base::{BootPath, Bytes, Refusal, Target, Text, shown_name};
use boot_machine::Machine;
use command_plans::{
    Change, Outcome, Plan, ReadError, RunError, plan_read_error, plan_word_error, too_large,
};
use pe_builder::LayoutFault;
use std::alloc::{AllocError, Global};
use tool_words::BuildWords;
use uki_parts::SectionName;

fn section_twice(alloc: Global, name: SectionName) -> Result<Refusal, AllocError>
    ensures { IfOk result (λ why. why ≡ Refusal.SectionTwice (flat_map shown_byte (name_bytes name))) }
{
    let name = Text::from(shown_name(alloc, name.bytes())?);
    Ok(Refusal::SectionTwice { name })
}

// The refusal of a builder that makes no image for that path.
fn builder_refusal(
    alloc: Global,
    output: &BootPath,
    fault: LayoutFault,
) -> Result<Refusal, AllocError>
    ensures { IfOk result (λ why. builder_refusal output.now fault ≡ Some why) }
{
    match fault {
        LayoutFault::Memory => Err(AllocError),
        LayoutFault::SignedStub => Ok(Refusal::SignedStub),
        LayoutFault::SectionTwice { name } => section_twice(alloc, name),
        LayoutFault::SbatDoesNotFit { length, room } => Ok(Refusal::SbatDoesNotFit {
            length,
            room,
        }),
        LayoutFault::NoHeaderSpace { need, have } => Ok(Refusal::NoHeaderSpace { need, have }),
        LayoutFault::AddressSpace { end } => Ok(Refusal::AddressSpace { end }),
        LayoutFault::ImageTooLarge { size } => too_large(alloc, output, size),
    }
}

// The plan of the image that is built of these, or the builder's first refusal.
fn plan_parts(alloc: Global, built: BuildParts) -> Result<PlannedBuild, ReadError>
    requires { IsPlannable built }
    ensures says { (view : Files) → BuiltHasSizes (contents view) built
        → pe_of (contents view built.stub) ≡ Ok (headers_of built.head)
        → Says (built_as view) result (image_of built.output (material_as (contents view) built)) }
    ensures planned { IfOk result (λ plan. (view : Files) → BuiltHasSizes (contents view) built
        → pe_of (contents view built.stub) ≡ Ok (headers_of built.head)
        → IsPlannedOn view plan) }
    ensures output { IfOk result (λ plan. plan.output ≡ built.output) }
    ensures counts { (counts : Counts) → CountsReadError result counts counts }
{
    let BuildParts {
        stub,
        stub_length,
        head,
        linux,
        parts,
        sbat,
        output,
    } = built;
    let stub = StubFile {
        path: stub,
        length: stub_length as u32,
    };
    match plan_image_of(alloc, &head, stub, parts, linux, sbat) {
        Ok(image) => Ok(PlannedBuild {
            image,
            head,
            output,
        }),
        Err(fault) => Err(ReadError::Refused(builder_refusal(alloc, &output, fault)?)),
    }
}

// The plan of the image that is built of what words name, made by reads alone.
fn planned_build<M: Machine>(
    alloc: Global,
    sources: BuildSources,
    machine: &mut M,
) -> Result<PlannedBuild, ReadError>
    requires named { AreNamed sources }
    ensures says { IsTrue M.tells → Says (built_as (seen (M.state machine.old))) result
        (build_named (seen (M.state machine.old)) (named_as sources)) }
    ensures planned { IfOk result (λ plan. IsTrue M.tells → IsPlannedOn (seen (M.state machine.old)) plan) }
    ensures looks { Looks M.tells M.time M.state M.counts (CountsReadError result) machine.old machine.new }
    ensures taken { IsTrue M.tells → TakesAtMost
        (reading_length (contents (seen (M.state machine.old))) (named_as sources))
        (M.taken machine.old) (M.taken machine.new) }
{
    let built = read_build(alloc, sources, machine)?;
    plan_parts(alloc, built)
}

fn built_line(alloc: Global, output: &BootPath, size: u64) -> Result<Vec<u8>, AllocError>
    ensures { IfOk result (λ line. line.items ≡ built_line output.now size) }
{
    let line = format!(in alloc; "built {output}, {size} bytes\n")?;
    Ok(line.into_bytes())
}

// What is said of the planned image.
fn reply<M: Machine>(
    alloc: Global,
    build: &PlannedBuild,
    measure: bool,
    machine: &mut M,
) -> Result<Vec<u8>, ReadError>
    ensures says { IsTrue M.tells → IsPlannedOn (seen (M.state machine.old)) build.now
        → Says (λ text. text.items) result
        (Ok (built_text measure (built_as (seen (M.state machine.old)) build.now))) }
    ensures looks { Looks M.tells M.time M.state M.counts (CountsReadError result) machine.old machine.new }
    ensures taken { IsTrue M.tells → IsPlannedOn (seen (M.state machine.old)) build.now → TakesAtMost
        (measuring_length measure (planned_image build.now.image.plan build.now.image.sources
        (seen (M.state machine.old))))
        (M.taken machine.old) (M.taken machine.new) }
{
    let mut text = built_line(alloc, &build.output, build.image.plan.image_length())?;
    if !measure {
        return Ok(text);
    }
    let values = planned_values(alloc, build, machine)?;
    text.extend_from_slice(&values)?;
    Ok(text)
}

// The plan that writes the image and says this.
fn writing_plan(alloc: Global, build: PlannedBuild, text: Vec<u8>) -> Result<Plan, AllocError>
    ensures plans { IfOk result (λ plan. (s : State) (measure : Bool)
        → IsSourced build.image.plan build.image.sources (seen s)
        → text.items ≡ built_text measure (built_as (seen s) build)
        → Plans s plan (built_answer (seen s) measure (Ok (built_as (seen s) build)))) }
    ensures writes { IfOk result (λ plan. (view : Files) → IsSourced build.image.plan build.image.sources view
        → making_length view plan.change ≤ length (planned_image build.image.plan build.image.sources view)) }
{
    let PlannedBuild { image, output, .. } = build;
    Ok(Plan {
        change: Change::Write {
            image: image.plan,
            sources: image.sources,
            target: Target::of(alloc, output)?,
        },
        outcome: Outcome::Done,
        text: Bytes::from(text),
    })
}

// The plan of the build of what the words name, or why there is none.
fn plan_or_read_error<M: Machine>(
    alloc: Global,
    words: &BuildWords,
    sources: BuildSources,
    machine: &mut M,
) -> Result<Plan, ReadError>
    requires named { named_files words.now ≡ Ok (named_as sources) }
    ensures plans { IfOk result (λ plan. IsTrue M.tells → Plans (M.state machine.old) plan
        (build_answer (seen (M.state machine.old)) words.now)) }
    ensures read_error { IfErr result (λ read_error. IsTrue M.tells
        → ReadErrorFor read_error (build_named (seen (M.state machine.old)) (named_as sources))) }
    ensures writes { IfOk result (λ plan. IsTrue M.tells → making_length (seen (M.state machine.old)) plan.change
        ≤ built_length (build_of (seen (M.state machine.old)) words.now)) }
    ensures looks { Looks M.tells M.time M.state M.counts (CountsReadError result) machine.old machine.new }
    ensures taken { IsTrue M.tells → TakesAtMost
        (planning_length (seen (M.state machine.old)) words.now.measure (Ok (named_as sources)))
        (M.taken machine.old) (M.taken machine.new) }
{
    let build = planned_build(alloc, sources, machine)?;
    let text = reply(alloc, &build, words.measure, machine)?;
    Ok(writing_plan(alloc, build, text)?)
}

// The plan of the build of what the words name.
fn plan_sources<M: Machine>(
    alloc: Global,
    words: &BuildWords,
    sources: BuildSources,
    machine: &mut M,
) -> Result<Plan, RunError>
    requires named { named_files words.now ≡ Ok (named_as sources) }
    ensures plans { IfOk result (λ plan. IsTrue M.tells → Plans (M.state machine.old) plan
        (build_answer (seen (M.state machine.old)) words.now)) }
    ensures writes { IfOk result (λ plan. IsTrue M.tells → making_length (seen (M.state machine.old)) plan.change
        ≤ built_length (build_of (seen (M.state machine.old)) words.now)) }
    ensures looks { Looks M.tells M.time M.state M.counts (CountsRunError result) machine.old machine.new }
    ensures taken { IsTrue M.tells → TakesAtMost
        (planning_length (seen (M.state machine.old)) words.now.measure (Ok (named_as sources)))
        (M.taken machine.old) (M.taken machine.new) }
{
    match plan_or_read_error(alloc, words, sources, machine) {
        Ok(plan) => Ok(plan),
        Err(read_error) => plan_read_error(alloc, read_error),
    }
}

/// What a build is going to do and to say: the image of what its words mean comes to stand at the output. Files are
/// found and headers read; other bytes are read for the SBAT text alone, and once each where the image is measured. To
/// write the image then, no more bytes of files are read than it has.
/// Words that name no section or no path are refused whatever the machine tells.
pub fn plan_build<M: Machine>(
    alloc: Global,
    words: &BuildWords,
    machine: &mut M,
) -> Result<Plan, RunError>
    ensures plans { IfOk result (λ plan. IsTrue M.tells → Plans (M.state machine.old) plan
        (build_answer (seen (M.state machine.old)) words.now)) }
    ensures word_error { (why : Refusal) → named_files words.now ≡ Err why
        → IfOk result (PlansWordError (word_errors.Refused why)) }
    ensures writes { IfOk result (λ plan. IsTrue M.tells → making_length (seen (M.state machine.old)) plan.change
        ≤ built_length (build_of (seen (M.state machine.old)) words.now)) }
    ensures looks { Looks M.tells M.time M.state M.counts (CountsRunError result) machine.old machine.new }
    ensures taken { IsTrue M.tells → TakesAtMost
        (planning_length (seen (M.state machine.old)) words.now.measure (named_files words.now))
        (M.taken machine.old) (M.taken machine.new) }
{
    match build_sources(alloc, words) {
        Ok(sources) => plan_sources(alloc, words, sources, machine),
        Err(word_error) => Ok(plan_word_error(alloc, word_error)?),
    }
}
