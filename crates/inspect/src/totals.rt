// How many commands of each kind there are, and how much of each asset they move.
use std::fmt;
use std::num::Saturating;
use terms::{Action, Grant, Transaction, Volume};

// What is moved of one asset.
#[derive(Clone, Copy, Default)]
struct Moved {
    founded: Saturating<u64>,
    sold: Saturating<u64>,
    offered: Saturating<u64>,
    paid: Saturating<u64>,
}

#[derive(Clone, Copy, Default)]
pub struct Totals {
    grants: usize,
    volumes: usize,
    creates: Saturating<usize>,
    pays: Saturating<usize>,
    offers: Saturating<usize>,
    cancels: Saturating<usize>,
    moved: [Moved; 8],
}

impl Totals {
    pub fn of_founding(grants: &[Grant]) -> Totals {
        let mut totals = Totals::default();
        totals.grants = grants.len();
        for grant in grants {
            for (moved, balance) in totals.moved.iter_mut().zip(grant.balances.iter()) {
                moved.founded += *balance;
            }
        }
        totals
    }

    pub fn of_block(volumes: &[Volume], transactions: &[Transaction]) -> Totals {
        let mut totals = Totals::default();
        totals.volumes = volumes.len();
        for volume in volumes {
            if let Some(moved) = totals.moved.get_mut(usize::from(volume.sold)) {
                moved.sold += volume.amount;
            }
        }
        for transaction in transactions {
            totals.add(transaction.action);
        }
        totals
    }

    fn add(&mut self, action: Action) {
        match action {
            Action::Create { .. } => self.creates += 1,
            Action::Cancel { .. } => self.cancels += 1,
            Action::Pay { asset, amount, .. } => {
                self.pays += 1;
                if let Some(moved) = self.moved.get_mut(usize::from(asset)) {
                    moved.paid += amount;
                }
            }
            Action::Place { sold, amount, .. } => {
                self.offers += 1;
                if let Some(moved) = self.moved.get_mut(usize::from(sold)) {
                    moved.offered += amount;
                }
            }
        }
    }
}

impl fmt::Display for Totals {
    fn fmt<W: fmt::Write>(&self, f: &mut fmt::Formatter<W>) -> fmt::Result {
        let Totals {
            grants,
            volumes,
            creates,
            pays,
            offers,
            cancels,
            moved,
        } = *self;
        write!(
            f,
            "       in all {grants} G, {volumes} V, {creates} A, {pays} T, {offers} O, {cancels} C"
        )?;
        for (asset, moved) in moved.iter().enumerate() {
            let told = [
                (moved.founded, "founded"),
                (moved.sold, "sold by volumes"),
                (moved.offered, "newly offered"),
                (moved.paid, "paid"),
            ];
            for (amount, how) in told.iter().filter(|(amount, _)| amount.0 > 0) {
                write!(f, "; {amount} of asset {asset} {how}")?;
            }
        }
        Ok(())
    }
}
