// A tiny kind of weight and a tiny tariff that keep the laws, and examples of triangles, weights, tariffs and prices at their edges.
#![tactic(auto)]

mod charged;
mod lent;
#[cfg(test)]
mod price_edges;
#[cfg(test)]
mod shapes;
#[cfg(test)]
mod tariff_edges;
mod tolls;
#[cfg(test)]
mod triangle_edges;
#[cfg(test)]
mod weight_edges;
