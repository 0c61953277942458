//! Tests of the ground and of the parts that stand on it alone, by subject. Nothing else stands here: their
//! crates are proved once without them.
#![tactic(auto)]

#[cfg(test)]
mod budgets;
#[cfg(test)]
mod checks;
#[cfg(test)]
mod drawn_budgets;
#[cfg(test)]
mod images;
#[cfg(test)]
mod links;
#[cfg(test)]
mod lists;
#[cfg(test)]
mod logs;
#[cfg(test)]
mod message_ranges;
#[cfg(test)]
mod numbers;
#[cfg(test)]
mod opened;
#[cfg(test)]
mod orders;
#[cfg(test)]
mod sendings;
#[cfg(test)]
mod setups;
#[cfg(test)]
mod texts;
