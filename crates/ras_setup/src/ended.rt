//! What stands behind a text's last heading.
ghost use Rattle.std.specs.Prelude.{◌≡◌, ◌≤◌, length};
ghost use Rattle.std.specs.List.{prefix_len};
ghost use Rattle.ras_setup.specs.Ends.{IsEndedAt};
ghost use Rattle.spec_grammar.specs.Tokens.{is_blank as is_blank_byte};
ghost use Rattle.spec_workloads.specs.Sections as spec;

use ras_parse::bytes::is_blank;
use ras_workload::WorkloadFault;

/// How many blanks a text begins with.
fn blanks_len(text: &[u8]) -> usize
    ensures value { result ≡ prefix_len is_blank_byte text.now }
    ensures within { result ≤ length text.now }
{
    text.iter().take_while(|byte| is_blank(**byte)).count()
}

/// How many line feeds a text has.
fn line_feeds(text: &[u8]) -> u64
    ensures value { result ≡ spec.line_feeds text.now }
    ensures few { result ≤ length text.now }
{
    text.iter().filter(|byte| **byte == b'\n').count() as u64
}

/// Whether blanks alone stand behind a place; else the line of the first other byte, counted from 1, is told.
pub(crate) fn check_end(text: &[u8], behind: usize) -> Result<(), WorkloadFault>
    requires { behind ≤ length text.now }
    ensures { IsEndedAt text.now behind result }
{
    let rest = &text[behind..];
    let blanks = blanks_len(rest);
    if blanks == rest.len() {
        return Ok(());
    }
    let line = line_feeds(&text[..behind + blanks]) + 1;
    Err(WorkloadFault::BadHeading { line })
}
