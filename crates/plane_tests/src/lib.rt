//! Tests of the crates of the plane, by their public items alone: predicates, circles, drawings,
//! forks, boxes, bad pairs of curves, pairs that break a level, meshes, the sweep, places of
//! points, links to roots, boundaries of surfaces, polygons of faces and the texts of certificates.
//! Whole areas with their faces and links, and certificates that are changed in a line, are rows of
//! `worked_rows`.
//!
//! They stand in a crate of their own since a library with tests is proved once more with them.
#![tactic(auto)]

#[cfg(test)]
mod bad_pairs;
#[cfg(test)]
mod bar_links;
#[cfg(test)]
mod bent_drawings;
#[cfg(test)]
mod broken_levels;
#[cfg(test)]
mod certificates;
#[cfg(test)]
mod chunked_lists;
#[cfg(test)]
mod circles;
#[cfg(test)]
mod drawings;
#[cfg(test)]
mod drawn;
#[cfg(test)]
mod edge_lists;
#[cfg(test)]
mod event_squares;
#[cfg(test)]
mod face_polygons;
#[cfg(test)]
mod foreign_corners;
#[cfg(test)]
mod fork_zones;
#[cfg(test)]
mod half_arc_tubes;
#[cfg(test)]
mod meetings_of_edges;
#[cfg(test)]
mod meshes;
#[cfg(test)]
mod near_boxes;
#[cfg(test)]
mod point_places;
#[cfg(test)]
mod small_edges;
#[cfg(test)]
mod surfaces;
#[cfg(test)]
mod sweeps;
