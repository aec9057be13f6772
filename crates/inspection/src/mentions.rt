// The mentions of a component, read once: those of values that there are, and how
// many places stand before each. Then the phis and instructions, whose lists are of
// places.
ghost use Rattle.std.specs.Prelude.{◌≡◌, ◌≤◌, length};
ghost use Rattle.component.specs.Meaning.{sizes_of};
ghost use Rattle.rules.specs.Lists.{test_of, test_in};
ghost use Rattle.rules.specs.Rules.{PlacesCounted, mention_fits, phi_fits, instruction_fits, places_from};
ghost use Rattle.rules.specs.Admission.{mention_breach, phi_breach, instruction_breach};

use crate::Inspection;
use component::Component;
use component::records::{Mention, Sizes};
use rules::firsts::{first_failing, note_failing};
use rules::records::{Places, mention_fits, places_after};

// As many mentions as there can be, and one. The caller lends an array of them, since
// admission uses local memory alone.
pub const BEFORE_MENTIONS: usize = 32769;

fn fits(sizes: Sizes, mention: Option<Mention>) -> bool
    ensures { result ≡ test_of (mention_fits sizes) mention }
{
    mention.is_none_or(|mention| mention_fits(sizes, mention))
}

impl<'a, C: Component> Inspection<'a, C> {
    // Writes how many places stand right before each mention, and answers the first
    // mention with a number outside the value table.
    pub fn read_mentions(&self, before: &mut [u16; BEFORE_MENTIONS]) -> Option<usize>
        requires { length self.now.mentions ≤ 32768 }
        ensures counted { PlacesCounted self.now.mentions before.new }
        ensures breach { result ≡ mention_breach self.now }
    {
        let mut found = None;
        let mut places = 0u16;
        before[0] = 0;
        // A loop: each step carries on what was found, counted and written.
        for n in 0..self.sizes.mentions {
            let mention = self.component.mention(n);
            found = note_failing(found, fits(self.sizes, mention), n);
            places = places_after(places, mention);
            before[n + 1] = places;
        }
        found
    }
}

// An inspection, with how many places stand right before each mention.
#[derive(Drop)]
pub struct Counted<'a, 'b, C: Component> {
    pub inspection: &'a Inspection<'b, C>,
    pub before: &'a [u16],
    ghost counted: { PlacesCounted inspection.now.mentions before.now },
}

impl<'a, 'b, C: Component> Counted<'a, 'b, C> {
    fn places(&self) -> Places<'a>
        ensures sizes { result.sizes ≡ sizes_of self.now.inspection.now }
        ensures before { result.before.now ≡ self.now.before.now }
    {
        Places {
            sizes: self.inspection.sizes(),
            before: self.before,
        }
    }

    // A match, here and below: tried with `is_none_or`, and the proof did not close for
    // a closure over `places`, which holds a reference.
    fn phi_keeps(&self, n: usize) -> bool
        ensures { result ≡ test_in (phi_fits (sizes_of self.now.inspection.now) (places_from self.now.inspection.now.mentions)) self.now.inspection.now.phis n }
    {
        let inspection = self.inspection;
        match inspection.component.phi(n) {
            Some(phi) => self.places().phi_fits(phi),
            None => true,
        }
    }

    fn instruction_keeps(&self, n: usize) -> bool
        ensures { result ≡ test_in (instruction_fits (sizes_of self.now.inspection.now) (places_from self.now.inspection.now.mentions)) self.now.inspection.now.instructions n }
    {
        let inspection = self.inspection;
        match inspection.component.instruction(n) {
            Some(instruction) => self.places().instruction_fits(instruction),
            None => true,
        }
    }

    pub fn phi_breach(&self) -> Option<usize>
        ensures { result ≡ phi_breach self.now.inspection.now }
    {
        first_failing(self.inspection.sizes().phis, |n| self.phi_keeps(n))
    }

    pub fn instruction_breach(&self) -> Option<usize>
        ensures { result ≡ instruction_breach self.now.inspection.now }
    {
        first_failing(
            self.inspection.sizes().instructions,
            |n| self.instruction_keeps(n),
        )
    }
}
