//! Each theorem can be called.

use entry_book::laws;

#[test]
fn the_laws_can_be_called() {
    laws::membership();
    laws::authorised_entries();
    laws::effects();
    laws::writes();
    laws::pages();
    laws::batch_runs();
    laws::faults();
    laws::verdicts();
    laws::histories();
    laws::tokens();
    laws::lawful_books();
    laws::worked_books();
    laws::worked_batches();
}
