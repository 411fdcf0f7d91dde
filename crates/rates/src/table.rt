//! A table of rates, one entry a day.
ghost use Rattle.std.specs.Prelude.{◌≡◌, ℕ, ◌≤◌, min, IfOk, None, vec_len, slice_index};
ghost use Rattle.rates.specs.Tables.{entry_rate, table_horizon, table_meaning};
ghost use Rattle.rates.specs.Meanings.{rates_of, published_in};
ghost use Rattle.rates.specs.Publishing.{DayFree, Sets};
ghost use Rattle.std.proofs.Common.{rules};

use crate::entry::DayRate;
use crate::error::Error;
use crate::horizon::Horizon;
use crate::source::{Publishing, RateSource, check_day};
use interest::MAX_DI_RATE;
use std::alloc::{AllocError, Global};

/// A source with one 32-bit entry a day, which takes new rates.
///
/// An entry is 0 where the day has no rate, and otherwise the rate plus one; an entry above the
/// highest rate plus one counts as none.
// Kept: an entry of 32 bits is the format of a table, in which an Option would take 64.
#[derive(Drop)]
pub struct TableSource {
    first: u32,
    entries: Vec<u32>,
}

// What an entry says.
fn rate_of_entry(entry: u32) -> Option<u32>
    ensures { result ≡ entry_rate entry }
{
    entry.checked_sub(1).filter(|rate| *rate <= MAX_DI_RATE)
}

// Entries without a rate, for so many days.
fn no_rates(heap: Global, count: u32) -> Result<Vec<u32>, AllocError>
    ensures { IfOk result (λ v. (min (vec_len v) u32.MAX ≡ count) × ((k : ℕ) → slice_index v.items k ≡ 0)) }
{
    vec![in heap; 0; count as usize]
}

impl TableSource {
    /// One day for each entry, from the first day on. Of more than 4,294,967,295 entries only so
    /// many are read.
    pub fn new(first: u32, entries: Vec<u32>) -> TableSource
        ensures { (result.first ≡ first) × (result.entries ≡ entries) }
    {
        TableSource { first, entries }
    }

    /// So many days from the first day on, none of which has a rate.
    pub fn empty(heap: Global, first: u32, count: u32) -> Result<TableSource, AllocError>
        ensures { IfOk result (λ s. (table_horizon s ≡ record { first = first; count = count }) × ((d : ℕ) → rates_of (table_meaning s) d ≡ None)) }
    {
        let entries = no_rates(heap, count)?;
        Ok(TableSource { first, entries })
    }

    // How many days the entries cover.
    fn count(&self) -> u32
        ensures { result ≡ min (vec_len self.now.entries) u32.MAX }
    {
        u32::try_from(self.entries.len()).unwrap_or(u32::MAX)
    }
}

impl RateSource for TableSource {
    ghost meaning = { table_meaning };

    ghost bounded = { Prim.search rules };

    fn horizon(&self) -> Horizon {
        Horizon {
            first: self.first,
            count: self.count(),
        }
    }

    fn rate(&self, day: u32) -> Option<u32> {
        if !self.horizon().holds(day) {
            return None;
        }
        rate_of_entry(self.entries[(day - self.first) as usize])
    }
}

impl TableSource {
    // Writes the rate of a day that has none.
    #[tactic(auto, using(crate::proofs::TableWriting::table_publishes, crate::proofs::TableWriting::table_sets))]
    fn write(&mut self, entry: DayRate)
        requires free { DayFree (table_meaning self.old) entry.day }
        requires limit { entry.rate ≤ MAX_DI_RATE }
        ensures meant { table_meaning self.new ≡ published_in (table_meaning self.old) entry }
        ensures sets { Sets (rates_of (table_meaning self.old)) entry (rates_of (table_meaning self.new)) }
    {
        let at = (entry.day - self.first) as usize;
        self.entries[at] = entry.rate + 1;
    }
}

impl Publishing for TableSource {
    fn publish(&mut self, entry: DayRate, period: u32) -> Result<(), Error> {
        check_day(self, entry.day)?;
        if entry.rate > MAX_DI_RATE {
            return Err(Error::RateTooHigh);
        }
        if period != 1 {
            return Err(Error::BadPeriod);
        }
        self.write(entry);
        Ok(())
    }
}
