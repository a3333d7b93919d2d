//! The search that a request asks for, and why it can't be opened.

ghost use Rattle.std.specs.Prelude.{◌≡◌, Ok, IfOk};
ghost use Rattle.farm_entry.specs.Ask.{asked_bar, asked_miss, asked_range, asked_rate, asked_reruns, asked_width, opening_of};

use crate::{MAX_RERUNS, OpenAsk, OpenFault, Opening};
use farm_types::{Memory, Name};
use flake_rate::{Bar, Miss, MissFault, Rate};
use std::alloc::Global;
use suspect_range::SuspectRange;
use weight_exact::MAX_WIDTH;

impl OpenAsk {
    /// The search that is asked for, under its number; or the first cause for which it can't be opened.
    pub fn opening(&self, alloc: Global, search: u32) -> Result<Result<Opening, OpenFault>, Memory>
        ensures { IfOk result (λ opening. opening ≡ opening_of self.now search) }
    {
        let test = self.test.copy()?;
        match self.asked_range(alloc)? {
            Ok(range) => Ok(self.opening_with(search, test, range)),
            Err(fault) => Ok(Err(fault)),
        }
    }

    /// The search that is asked for, of this test and over this range.
    fn opening_with(
        &self,
        search: u32,
        test: Name,
        range: SuspectRange,
    ) -> Result<Opening, OpenFault>
        requires test { test ≡ self.now.test }
        requires range { asked_range self.now ≡ Ok range }
        ensures { result ≡ opening_of self.now search }
    {
        let rate = self.asked_rate()?;
        let miss = self.asked_miss(rate)?;
        let bar = self.asked_bar()?;
        let width = self.asked_width()?;
        let reruns = self.asked_reruns()?;
        Ok(Opening {
            key: self.key,
            search,
            test,
            range,
            rate,
            miss,
            bar,
            width,
            reruns,
        })
    }

    /// The suspects as they are asked for, as a range.
    fn asked_range(&self, alloc: Global) -> Result<Result<SuspectRange, OpenFault>, Memory>
        ensures { IfOk result (λ range. range ≡ asked_range self.now) }
    {
        let suspects = Vec::from_slice(alloc, self.suspects.as_slice())?;
        match SuspectRange::of(self.base, suspects, self.calm) {
            Ok(range) => Ok(Ok(range)),
            Err(fault) => Ok(Err(OpenFault::Range(fault))),
        }
    }

    /// The flake rate that is asked for.
    fn asked_rate(&self) -> Result<Rate, OpenFault>
        ensures { result ≡ asked_rate self.now }
    {
        match Rate::of(self.rate.0, self.rate.1) {
            Ok(rate) => Ok(rate),
            Err(fault) => Err(OpenFault::Rate(fault)),
        }
    }

    /// The miss rate that is asked for, if it fits the flake rate.
    fn asked_miss(&self, rate: Rate) -> Result<Miss, OpenFault>
        ensures { result ≡ asked_miss self.now rate }
    {
        let (c, d) = self.miss;
        let Ok(miss) = Miss::of(c, d) else {
            return Err(OpenFault::Miss(MissFault { c, d }));
        };
        if miss.fits(&rate) {
            Ok(miss)
        } else {
            Err(OpenFault::Miss(MissFault { c, d }))
        }
    }

    /// The bar that is asked for.
    fn asked_bar(&self) -> Result<Bar, OpenFault>
        ensures { result ≡ asked_bar self.now }
    {
        match Bar::of(self.bar.0, self.bar.1) {
            Ok(bar) => Ok(bar),
            Err(fault) => Err(OpenFault::Bar(fault)),
        }
    }

    /// The width that is asked for.
    fn asked_width(&self) -> Result<u8, OpenFault>
        ensures { result ≡ asked_width self.now }
    {
        if 1 <= self.width && self.width <= u32::from(MAX_WIDTH) {
            Ok(self.width as u8)
        } else {
            Err(OpenFault::Width(self.width))
        }
    }

    /// The number of reruns that is asked for.
    fn asked_reruns(&self) -> Result<u8, OpenFault>
        ensures { result ≡ asked_reruns self.now }
    {
        if 1 <= self.reruns && self.reruns <= MAX_RERUNS {
            Ok(self.reruns as u8)
        } else {
            Err(OpenFault::Reruns(self.reruns))
        }
    }
}
