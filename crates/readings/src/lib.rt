// Tables of texts, with what the text layer and the readers answer to each.
#![tactic(auto)]

#[cfg(test)]
mod numbers;
#[cfg(test)]
mod plans;
#[cfg(test)]
mod polygons;
#[cfg(test)]
mod refusal;
