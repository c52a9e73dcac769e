//! Whether node records are a chart: refusals 4, 5, 19 and 6 to 9 in this order, each with the lowest node at fault (`check`).
//! `chart_fields` tries the fields of one node (4), `chart_counts` each scheme's Begins and Ends (5), `chart_handler` the marks (19),
//! `chart_arcs` arcs and calls (6, 7), `circles` the conditions that the search of `finishing` leaves (8), and `joined` the nodes that no
//! arcs join from their Begin (9); marks that spread over arcs are in `node_marks`.
#![tactic(auto)]

mod chart_arcs;
mod chart_counts;
mod chart_fields;
mod chart_handler;
mod check;
mod circles;
mod finishing;
mod joined;
mod node_marks;

pub use chart_counts::highest_scheme;
pub use chart_handler::handler_scheme;
pub use check::check_chart;
