// Withdrawal of a number.
ghost use Rattle.std.specs.Prelude.{◌≡◌, ◌≤◌};
ghost use Rattle.image.specs.Fields.{issued};
ghost use Rattle.image.specs.Header.{Header};
ghost use Rattle.register.specs.Calls.{Withdraws};
ghost use Rattle.register.specs.Inner.{active_answer, withdrawal_answer};

use changes::{change, check_journal};
use image::{Status, is_active};
use record_reader::check_number;
use refusal::{Reason, Refusal, refuse};

// The tests 17, 15, of a number that was issued.
#[tactic(auto, unfolding(crate::specs::Calls::active_grounds))]
fn check_active(image: &[u8], number: usize) -> Result<(), Refusal>
    requires header { Header image.now }
    requires le_number { (1 ≤ number) × (number ≤ issued image.now) }
    ensures { result ≡ active_answer image.now number }
{
    if !is_active(image, number) {
        return Err(refuse(Reason::NotActive, number as u64));
    }
    check_journal(image)
}

// The tests 10, 16, 17, 15.
#[tactic(auto, unfolding(crate::specs::Calls::withdrawal_grounds))]
fn check_withdrawal(image: &[u8], number: u64) -> Result<(), Refusal>
    ensures { result ≡ withdrawal_answer image.now number }
{
    check_number(image, number)?;
    check_active(image, number as usize)
}

// Makes an active number inactive.
#[tactic(auto, unfolding(crate::specs::Calls::Withdraws, changes::specs::Changes::withdrawn))]
pub fn withdraw(image: &mut [u8], number: u64) -> Result<(), Refusal>
    ensures { Withdraws image.old number result image.new }
{
    check_withdrawal(image, number)?;
    change(image, number as usize, Status::Inactive);
    Ok(())
}
