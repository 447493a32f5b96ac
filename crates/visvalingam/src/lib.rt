//! The greedy run of Visvalingam and Whyatt over the lines of a coverage: which points go.
//!
//! Its promise: `removed_points` gives the state in which the run of the definition ends (`IsFinalState` of `greedy_run`).
//!
//! A spot is entered in a queue where its triangle is small. The least spot of the queue is taken out: it is stale where its point has
//! gone or its triangle is no longer of that size; where a vertex is in its triangle, it waits until that vertex goes; where its third
//! side is a current segment, it is dropped, since that segment stays until a neighbour goes and enters the spot anew. Else its point
//! goes, and its neighbours and all that waited for it are entered again.
//!
//! The files of `src/`: `spot`, a spot of the queue; `corner`, a point between its neighbours; `queue`; `waiting`; `segments`, the
//! current segments; `chains`, the places of neighbours; `task`, what is asked; `state`, a state and its steps; `begin`, the first
//! state; `run`.
//!
//! The files of `proofs/`: `Ready`, what the queue takes care of, and what popping, waiting and a removal keep of it (`next_is`,
//! `none_left`, `removal_ready`); `Chained`, links as points go; `Queues`; `Joining`, a set of segments; `Spots`, corners and spots;
//! `Stepping`, states whose queue alone changes; `Removing`, the tables after a point went; `Removed`, the state then
//! (`after_removal`); `Fewer`, that fewer points are left; `Begun`, the first state (`begins`); `Running`, the run (`goes_on`, `ends`).
#![tactic(auto)]

mod begin;
mod chains;
mod corner;
mod queue;
mod run;
mod segments;
mod spot;
mod state;
mod task;
mod waiting;

pub use run::removed_points;
