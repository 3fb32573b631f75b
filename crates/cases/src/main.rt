// Builds the outline of each list and prints a line for it, as bits: the count and the points, the refusal, and for an
// accepted outline its corners' count, the corners and the centroid.

#![tactic(auto)]

use floats::b2_math::B2vec2;
use floats::bits;
use shape_definitions::b2_polygon_shape::B2polygonShape;
use shape_definitions::refusal::Refusal;
use shapes::b2_polygon_shape;
use std::{array, io};

mod outlines;

const ORIGIN: B2vec2 = B2vec2 { x: 0.0, y: 0.0 };

fn point([x, y]: [u32; 2]) -> B2vec2 {
    B2vec2 {
        x: bits::f32_from_bits(x),
        y: bits::f32_from_bits(y),
    }
}

fn print_point(rt: &impl Print, p: B2vec2) -> io::Result<()> {
    let x = bits::f32_to_bits(p.x);
    let y = bits::f32_to_bits(p.y);
    print!(rt; " {x:08x} {y:08x}")
}

fn print_list(rt: &impl Print, list: &[[u32; 2]]) -> io::Result<()> {
    let count = list.len();
    print!(rt; "{count:02x}")?;
    for p in list {
        print_point(rt, point(*p))?;
    }
    print!(rt; " : ")
}

fn print_outline(rt: &impl Print, shape: B2polygonShape) -> io::Result<()> {
    let count = shape.m_count;
    print!(rt; " {count:02x}")?;
    for p in shape.m_vertices.iter().take(count) {
        print_point(rt, *p)?;
    }
    print_point(rt, shape.m_centroid)
}

// The outline of a list's points, of which at most eight are given.
fn outline(list: &[[u32; 2]]) -> Result<B2polygonShape, Refusal> {
    let empty = B2polygonShape {
        m_radius: 0.0,
        m_centroid: ORIGIN,
        m_vertices: [ORIGIN; 8],
        m_normals: [ORIGIN; 8],
        m_count: 0,
    };
    let points = array::from_fn(|i| list.get(i).map_or(ORIGIN, |p| point(*p)));
    b2_polygon_shape::b2_polygon_shape_set_core(empty, points, list.len())
}

fn main(rt: HostRuntime) -> io::Result<()> {
    for list in outlines::LISTS {
        print_list(&rt, list)?;
        match outline(list) {
            Ok(shape) => {
                print!(rt; "00")?;
                print_outline(&rt, shape)?;
            }
            Err(why) => {
                let refusal = u8::from(why);
                print!(rt; "{refusal:02x}")?;
            }
        }
        println!(rt; "")?;
    }
    Ok(())
}
