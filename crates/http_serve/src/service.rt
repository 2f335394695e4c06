//! What a server needs of the service behind it.
ghost use Rattle.std.specs.Prelude.{◌≡◌, Some, None, OnErr, IfOk, IfErr, IsErrOf};
ghost use Rattle.release.specs.Standing.{answer_view};
ghost use Rattle.http_serve.specs.Services.{Offered, IsTold};

use crate::submission::{Submission, SubmitFault};
use release::{Answer, AnswerFault};
use site_ids::{Instance, Ticket};
use std::alloc::Global;

/// A service that shows releases of a site and handles submissions.
///
/// Its ghost member says what it is in each of its states (`Offered`: pages, receipts, how a submission may
/// end, and what leaves all that it shows and holds as it was). An `impl` chooses it: what `serve` promises
/// over a service is what is said there.
pub trait Service {
    /// What the service offers in each of its states.
    ghost offered: { Offered Self };

    /// The number of the newest release; 0 if there is none.
    fn newest(&self) -> u64
        ensures { result ≡ offered.newest_is self.now };

    /// The page of release n for a path.
    fn answer(&self, alloc: Global, n: u64, path: &str) -> Result<Answer, AnswerFault>
        ensures page { IfOk result (λ a. offered.page_is self.now n path.now ≡ Some (answer_view a)) }
        ensures none { IsErrOf result AnswerFault.NoSuchRelease
            → offered.page_is self.now n path.now ≡ None };

    /// The instance at which a ticket's command is known.
    fn receipt(&self, ticket: Ticket) -> Option<Instance>
        ensures { result ≡ offered.receipt_is self.now ticket };

    /// Takes a command text under a ticket, or refuses it.
    fn submit(
        &mut self,
        alloc: Global,
        ticket: Ticket,
        text: &[u8],
    ) -> Result<Submission, SubmitFault>
        ensures outcome { offered.takes self.old ticket text.now result self.new }
        ensures refused { OnErr result (offered.stays self.old self.new) }
        ensures told { IfErr result IsTold };
}
