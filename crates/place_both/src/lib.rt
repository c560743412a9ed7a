//! Two designs side by side on a machine, or one design twice: an image of both that uses nothing that a list of defects names, or
//! what there is no room for.
//!
//! Promised (`lay_both`): there is room exactly where the in-order plan of the joint network of the two plain networks fits the list.
//! What is laid then is that network on that plan, or the joint network of two networks with the designs' rows of which nothing is in
//! vain: each table leads to an output, each is no deeper than its design's plain network, and nets cross no more nodes in sum than by
//! the joint network's own plan in order (`IsRoutedForBoth`). The image reads the rows of both under all faults that the list covers.
//! What of it is each design's shares no wire with the other's, is right for that design alone, and runs as it does alone; and for as
//! long as it is left alone, whatever is done to the other and to all the rest, at any tick, it reads that design's rows.
#![tactic(auto)]

mod laying;
mod networks;
mod smaller;

pub use laying::lay_both;
