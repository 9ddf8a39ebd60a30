//! `Opened`: an instance that stays open between calls, along with the certificate bound to it, if
//! any. Each handle of tsp_c holds one. By `specs/Open.antt`, it is judged as its text would be.

ghost use Rattle.tsp_judge.specs.Open.{ReadsText};

use crate::run_status::RunError;
use std::alloc::Global;
use std::marker::Model;
use tsp_cost::Instance;
use tsp_file::File;
use tsp_read::file_of_bytes;
use tsp_report::{BoundVerdict, CertificateKind, KnownBound, Verdict};
use tsp_verdict::{is_bounded, judge_bound, judge_next, known_bound_alone, known_bound_of};

/// An instance, the certificate bound to it, if any, and what the two say about all solutions,
/// which is found once: when the certificate is bound, or the instance is opened.
#[derive(Drop)]
pub struct Opened {
    instance: Instance,
    certificate: Option<(CertificateKind, File)>,
    known_bound: KnownBound,
}

impl Model for Opened {
    ghost use Rattle.tsp_judge.specs.Prelude.{IsProblem, IsKnownBound};
    ghost use Rattle.tsp_judge.specs.Open.{Open};

    ghost Value = { Open };

    ghost view = { λ o. record { instance = o.instance; certificate = o.certificate } };

    ghost invariant = { λ o. IsProblem o.instance × IsKnownBound o.certificate o.instance o.known_bound };
}

impl Opened {
    ghost use Rattle.std.specs.Prelude.{◌≡◌, MatchResult};
    ghost use Rattle.tsp_judge.specs.Open.{IsOpened, IsUnopened, IsBoundTo, IsUnbound, IsHeldVerdict, IsNotJudged};

    /// Opens the instance that this text contains. No certificate is bound to it.
    ///
    /// # Errors
    ///
    /// `File` with the number 1 if the text isn't valid, and `WrongKind` if its file isn't an
    /// instance.
    pub fn of(alloc: Global, text: &[u8]) -> Result<Opened, RunError>
        ensures { MatchResult result
            (λ opened. IsOpened text.now opened) (λ fault. IsUnopened text.now fault) }
    {
        let file = read_text(alloc, 1, text)?;
        match Instance::of(file) {
            Ok(instance) => Ok(Opened {
                known_bound: known_bound_alone(&instance),
                instance,
                certificate: None,
            }),
            Err((_, other)) => {
                drop(other);
                Err(RunError::wrong_kind())
            }
        }
    }

    /// What was read and judged once.
    pub fn instance(&self) -> &Instance
        ensures { result.now ≡ self.now.instance }
    {
        &self.instance
    }

    /// Binds the certificate that this text contains, replacing an earlier one, and returns its
    /// bound for the instance. If a reason applies to the certificate, solutions that would
    /// otherwise be accepted are rejected with it.
    ///
    /// # Errors
    ///
    /// `File` with the number 2 if the text isn't valid, `WrongKind` if the certificate can't bound
    /// solutions of the instance's TYPE, and `OutOfMemory`. In each case nothing has changed.
    pub fn bind(
        &mut self,
        alloc: Global,
        by: CertificateKind,
        text: &[u8],
    ) -> Result<BoundVerdict, RunError>
        ensures { MatchResult result
            (λ found. IsBoundTo by text.now self.old self.new found)
            (λ fault. (self.new ≡ self.old) × IsUnbound by text.now self.old fault) }
    {
        let file = read_text(alloc, 2, text)?;
        if !is_bounded(by, self.instance.kind()) {
            return Err(RunError::wrong_kind());
        }
        let found = match judge_bound(alloc, by, &self.instance, &file) {
            Ok(found) => found,
            Err(refused) => return Err(RunError::refused(refused)),
        };
        self.known_bound = known_bound_of(&self.instance, found);
        self.certificate = Some((by, file));
        Ok(found)
    }

    /// The verdict on the solution that this text contains, with the bound certificate and the
    /// claimed length, if there are any.
    ///
    /// # Errors
    ///
    /// `File` with the number 2 if the text isn't valid, and `OutOfMemory`.
    pub fn judge(
        &self,
        alloc: Global,
        text: &[u8],
        claimed: Option<i64>,
    ) -> Result<Verdict, RunError>
        ensures { MatchResult result
            (λ verdict. IsHeldVerdict text.now claimed self.now verdict)
            (λ fault. IsNotJudged text.now self.now fault) }
    {
        let solution = read_text(alloc, 2, text)?;
        match judge_next(alloc, &self.instance, self.known_bound, &solution, claimed) {
            Ok(verdict) => Ok(verdict),
            Err(refused) => Err(RunError::refused(refused)),
        }
    }
}

/// Reads the file that this text contains. `number` is its number in a fault.
///
/// # Errors
///
/// `File` with this number if the text isn't valid.
pub fn read_text(alloc: Global, number: u32, text: &[u8]) -> Result<File, RunError>
    ensures { ReadsText number text.now result }
{
    match file_of_bytes(alloc, text) {
        Ok(file) => Ok(file),
        Err(unread) => Err(RunError::unread(number, unread)),
    }
}
