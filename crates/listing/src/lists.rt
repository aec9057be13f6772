// Lists of mentions and predecessors.
ghost use Rattle.std.specs.Prelude.{◌≡◌};
ghost use Rattle.listing.specs.Lists.{shown};

use crate::page::Page;
use component::Component;
use component::records::{Mention, Place, Run};

const MOST_SHOWN: usize = 32;

// How many entries of a list are shown.
fn shown_count(list: Run) -> usize
    ensures { result ≡ shown list }
{
    usize::from(list.count).min(MOST_SHOWN)
}

impl<'a, C: Component> Page<'a, C> {
    pub fn push_predecessors(&mut self, list: Run) {
        self.push_list(list, |page, n| match page.component.predecessor(n) {
            Some(predecessor) => page.push_number(usize::from(predecessor.id)),
            None => page.push_unknown(n),
        });
    }

    pub fn push_mentions(&mut self, list: Run) {
        self.push_list(list, |page, n| page.push_mention(n));
    }

    // The entries of a list that are shown, and how many there are besides.
    fn push_list<F: Fn(&mut Page<'a, C>, usize)>(&mut self, list: Run, push_entry: F)
        requires { F.IsAlwaysCallable push_entry }
    {
        let start = usize::from(list.start);
        let shown = shown_count(list);
        for n in start..start + shown {
            if n > start {
                self.push_str(", ");
            }
            push_entry(self, n);
        }
        let hidden = usize::from(list.count) - shown;
        if hidden > 0 {
            self.push(format_args!(" .. {hidden} more"));
        }
    }

    pub fn push_mention(&mut self, n: usize) {
        match self.component.mention(n) {
            Some(Mention::Place(place)) => self.push_place(place),
            Some(Mention::Spread(place)) => {
                self.push_str("...");
                self.push_place(place);
            }
            Some(Mention::Hole) => self.push_str("hole"),
            None => self.push_unknown(n),
        }
    }

    fn push_place(&mut self, place: Place) {
        self.push_value(place.value);
        self.push_str(" ");
        self.push_str(place.effect.word());
        if let Some(span) = place.span {
            self.push_str(" ");
            self.push_bounds(span.start, span.end);
        }
    }
}
