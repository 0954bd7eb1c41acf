//! The outline of a workload's text.
ghost use Rattle.std.specs.Prelude.{◌≡◌, ◌<◌, ◌^◌, length, List as ListOf, Some};
ghost use Rattle.spec_grammar.specs.Tokens.{Text as TextSeen};
ghost use Rattle.spec_workloads.specs.Outline as spec;
ghost use Rattle.spec_workloads.specs.Sections as sections;
ghost use Rattle.ras_workload.specs.Headed.{cut_by};
ghost use Rattle.ras_workload.specs.Outlines.{FindsOutline, Grows, IsTitle, outline_seen};
ghost use Rattle.ras_workload.specs.SectionViews.{section_seen};
ghost use Rattle.ras_workload.specs.Told.{FindsIn, fault_seen};

use crate::fault::WorkloadFault;
use crate::headings::{Heading, heading_of, is_same};
use crate::lines::line_feeds;
use crate::scripts::statements_of;
use crate::section::Section;
use crate::sections::Sections;
use crate::types::types_of;
use ras_domain::{List, Name, Text};
use ras_parse::bytes::space_len;
use ras_parse::lists::push;
use ras_syntax::{Script, Types};
use std::alloc::Global;

/// The most sessions of a workload.
const MAX_SESSIONS: usize = ras_syntax::MAX_SESSIONS as usize;

/// What a workload's text says before anything of it is run.
#[derive(Debug, Drop)]
pub struct Outline {
    /// The types, in the order of their lines.
    pub types: Types,
    /// The setup's statements, each as its text.
    pub setup: List<Text>,
    /// The sessions, in their order.
    pub scripts: List<Script>,
}

/// Which sections may still come.
#[derive(Clone, Copy)]
enum Due {
    All,
    /// The setup and sessions.
    SetupOn,
    /// Sessions alone.
    SessionsOn,
}

/// Whether a session has this name.
fn is_taken(name: &[u8], scripts: &[Script]) -> bool
    ensures { result ≡ spec.is_taken name.now scripts.now }
{
    scripts
        .iter()
        .any(|script| is_same(script.name.bytes(), name))
}

/// The name of one session more, if there is room for it and its name is free.
fn session_due(
    alloc: Global,
    line: u64,
    name: &[u8],
    scripts: &[Script],
) -> Result<Name, WorkloadFault>
    ensures { FindsIn (spec.session_due line name.now scripts.now) result }
{
    if scripts.len() >= MAX_SESSIONS {
        return Err(WorkloadFault::TooManySessions { line });
    }
    if is_taken(name, scripts) {
        return Err(WorkloadFault::BadHeading { line });
    }
    Ok(Name::of(alloc, name)?)
}

impl Outline {
    /// The outline of no section. It allocates nothing.
    fn new(alloc: Global) -> Outline
        ensures { outline_seen result ≡ spec.no_outline }
    {
        Outline {
            types: Types::new(alloc),
            setup: List::new(alloc),
            scripts: List::new(alloc),
        }
    }

    /// Takes the types of a section.
    fn take_types(
        &mut self,
        alloc: Global,
        due: Due,
        section: &Section<'_>,
        cut: WorkloadFault,
    ) -> Result<Option<Due>, WorkloadFault>
        ensures { (later : ListOf sections.Section) → fault_seen cut ≡ Some (cut_by later)
            → Grows due self.old section.now later spec.types result self.new }
    {
        let Due::All = due else {
            return Err(WorkloadFault::BadHeading { line: section.line });
        };
        self.types = types_of(alloc, section, cut)?;
        Ok(Some(Due::SetupOn))
    }

    /// Takes the setup of a section.
    fn take_setup(
        &mut self,
        alloc: Global,
        due: Due,
        section: &Section<'_>,
        cut: WorkloadFault,
    ) -> Result<Option<Due>, WorkloadFault>
        ensures { (later : ListOf sections.Section) → fault_seen cut ≡ Some (cut_by later)
            → Grows due self.old section.now later spec.setup result self.new }
    {
        if let Due::SessionsOn = due {
            return Err(WorkloadFault::BadHeading { line: section.line });
        }
        self.setup = statements_of(alloc, section, cut)?;
        Ok(Some(Due::SessionsOn))
    }

    /// Takes the session of a section.
    fn take_session(
        &mut self,
        alloc: Global,
        name: &[u8],
        section: &Section<'_>,
        cut: WorkloadFault,
    ) -> Result<Option<Due>, WorkloadFault>
        ensures { (later : ListOf sections.Section) (due : Due) → fault_seen cut ≡ Some (cut_by later)
            → Grows due self.old section.now later (spec.session name.now) result self.new }
    {
        let name = session_due(alloc, section.line, name, self.scripts.as_slice())?;
        let statements = statements_of(alloc, section, cut)?;
        push(alloc, &mut self.scripts, Script { name, statements })?;
        Ok(Some(Due::SessionsOn))
    }

    /// Takes a section, and tells which may come behind it; none where it is the last one. `cut` is
    /// the fault of a statement or a type that isn't ended before the next section.
    fn take(
        &mut self,
        alloc: Global,
        due: Due,
        section: &Section<'_>,
        cut: WorkloadFault,
    ) -> Result<Option<Due>, WorkloadFault>
        ensures { (later : ListOf sections.Section) → fault_seen cut ≡ Some (cut_by later)
            → Grows due self.old section.now later (spec.heading_of section.now.heading.now) result self.new }
    {
        match heading_of(section.heading) {
            Heading::Types => self.take_types(alloc, due, section, cut),
            Heading::Setup => self.take_setup(alloc, due, section, cut),
            Heading::Session(name) => self.take_session(alloc, name, section, cut),
            Heading::End => Ok(None),
            Heading::Unknown => Err(WorkloadFault::BadHeading { line: section.line }),
        }
    }
}

/// Whether a section is the title, with nothing behind it but blanks and comments.
fn check_title(section: &Section<'_>) -> Result<(), WorkloadFault>
    ensures { (later : ListOf sections.Section) → IsTitle (section_seen section.now) later result }
{
    if !is_same(section.heading, b"#rasq workload 1") {
        return Err(WorkloadFault::BadHeading { line: 1 });
    }
    let skipped = space_len(section.body);
    if skipped < section.body.len() {
        let line = section.line + 1 + line_feeds(&section.body[..skipped]);
        return Err(WorkloadFault::BadHeading { line });
    }
    Ok(())
}

/// The outline of a workload's text of fewer than 2^32 bytes, and the place behind the line of its
/// heading `#end`; what follows isn't looked at. The error is the first line that breaks the text, or
/// [`WorkloadFault::NoEnd`] where none does and the heading is missing; or want of memory.
pub fn read_outline(alloc: Global, text: &[u8]) -> Result<(Outline, usize), WorkloadFault>
    requires { length text.now < 2 ^ 32 }
    ensures { FindsOutline (spec.outline_of text.now) result }
{
    let Some(mut sections) = Sections::of(text) else {
        return Err(WorkloadFault::BadHeading { line: 1 });
    };
    let Some(title) = sections.next() else {
        return Err(WorkloadFault::BadHeading { line: 1 });
    };
    check_title(&title)?;
    let mut outline = Outline::new(alloc);
    let mut due = Due::All;
    while let Some(section) = sections.next() {
        match outline.take(alloc, due, &section, sections.cut())? {
            Some(next) => due = next,
            None => return Ok((outline, section.behind)),
        }
    }
    Err(WorkloadFault::NoEnd)
}
