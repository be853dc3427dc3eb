// The alternate is looked at and written in upper case as it lies in the line.
ghost use Rattle.vcf_form.specs.Calls.{VcfForms};
ghost use Rattle.vcf_form.specs.Inner.{OfLetters, FormsNamed};

use fields::extent_of;
use normal_form::normalise_read;
use normal_form_calls::{Formed, lay_form};
use refusal::{REPLACEMENT_LIMIT, Reason, Refusal, refuse};
use upper_case::{UpperCase, is_lettered};
use vcf_line::{InterbasePosition, alternate_of, read_site};

// 21 and what follows it, of what is named at a place of ALT.
fn form_named(
    reference: &[u8],
    start: InterbasePosition,
    end: InterbasePosition,
    named: &[u8],
    alternate: u64,
    out: &mut [u8],
    place: u64,
) -> Result<Formed, Refusal>
    requires { OfLetters reference.now start.0 end.0 }
    ensures { FormsNamed reference.now start.0 end.0 named.now alternate out.old
        place result out.new }
{
    if !is_lettered(named) {
        return Err(refuse(Reason::NoAlternate, alternate));
    }
    if REPLACEMENT_LIMIT < named.len() as u64 {
        return Err(refuse(Reason::OverLimit, 1));
    }
    let w = normalise_read::<UpperCase>(reference, start.0 as usize, end.0 as usize, named);
    lay_form::<UpperCase>(reference, named, w, out, place)
}

// Writes the normal replacement of the alternate at a place of ALT, from 1, into `out` from `place` on, and
// answers its form and how far it moved.
pub fn vcf_form(
    reference: &[u8],
    line: &[u8],
    alternate: u64,
    out: &mut [u8],
    place: u64,
) -> Result<Formed, Refusal>
    ensures { VcfForms reference.now line.now alternate out.old place result
        out.new }
{
    let site = read_site(reference, line)?;
    let named = alternate_of(extent_of(line, site.alternates), alternate);
    form_named(
        reference, site.start, site.end, named, alternate, out, place,
    )
}
