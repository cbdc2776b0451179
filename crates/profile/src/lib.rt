// A profile (document 02, N5): its fields with their units; there are no functions here.
#![tactic(auto)]

// A vertex, where two grades meet. Any value of each type may stand here; the checks say which are in range.
#[derive(Clone, Copy)]
pub struct Vertex {
    // The station, in mm.
    pub station: u64,
    // The grade that goes out of the vertex, in millionths.
    pub grade: i64,
    // The length of the curve, in mm, half of it before the vertex.
    pub length: u64,
}

// A profile of `count` vertices: the first `count` entries of `vertices` are used, the others mean nothing. Any value of each type may stand here;
// the checks say which are in range.
#[derive(Clone, Copy)]
pub struct Profile {
    // The design speed V, in km/h.
    pub speed: u64,
    // The station of the profile's start, in mm.
    pub start: u64,
    // The height of the start, in mm.
    pub height: i64,
    // The first grade, in millionths, which goes out of the start.
    pub grade: i64,
    // The number n of vertices.
    pub count: usize,
    // In the order of the road.
    pub vertices: [Vertex; 32],
}
