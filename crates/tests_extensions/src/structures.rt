//! Structures and their objects, worked from the pictures of RFC 4884 sections 7 and 8.

use crate::testing::{prints, same, same_of, takes_writes};
use extension_wire::{Object, ObjectRefusal, Objects, StructureRefusal, structure};
use std::process::Abort;

// The octets of a buffer before it is written into.
const FILLS: &[u8] = &[0x00, 0xff, 0x2a, 0xa5];

// The object that most structures here have.
const OBJECT: Object<'static> = Object {
    class: 1,
    c_type: 1,
    payload: &[0x00, 0x01, 0x01, 0x01],
};

// Checks that the objects are these, in turn.
fn check_structure(rt: &impl Abort, octets: &[u8], wanted: &[Object<'_>]) {
    let read = structure::parse(octets);
    let Ok(objects) = read else {
        return same_of(rt, octets, read.err(), None);
    };
    let mut answers = objects.iter();
    for object in wanted {
        same_of(rt, octets, answers.next(), Some(Ok(*object)));
    }
    same_of(rt, octets, answers.next(), None);
}

#[test]
fn structures_have_their_objects(rt: HostRuntime) {
    // 2000 + 0008 + 0101 + 0001 + 0101 = 220b, and ffff - 220b = ddf4.
    let rows: &[(&[u8], &[Object<'_>])] = &[
        (
            &[
                0x20, 0x00, 0xdd, 0xf4, 0x00, 0x08, 0x01, 0x01, 0x00, 0x01, 0x01, 0x01,
            ],
            &[OBJECT],
        ),
        // 2000 + 000c + 0101 + 05dc + 1cfe + 3fff = 83e6, and ffff - 83e6 = 7c19.
        (
            &[
                0x20, 0x00, 0x7c, 0x19, 0x00, 0x0c, 0x01, 0x01, 0x05, 0xdc, 0x1c, 0xfe, 0x00, 0x00,
                0x3f, 0xff,
            ],
            &[Object {
                class: 1,
                c_type: 1,
                payload: &[0x05, 0xdc, 0x1c, 0xfe, 0x00, 0x00, 0x3f, 0xff],
            }],
        ),
        // A checksum of zero says that none was computed.
        (
            &[
                0x20, 0x00, 0x00, 0x00, 0x00, 0x08, 0x01, 0x01, 0x00, 0x01, 0x01, 0x01,
            ],
            &[OBJECT],
        ),
        // Reserved bits are not looked at: 220b + 0fff = 320a, and ffff - 320a = cdf5.
        (
            &[
                0x2f, 0xff, 0xcd, 0xf5, 0x00, 0x08, 0x01, 0x01, 0x00, 0x01, 0x01, 0x01,
            ],
            &[OBJECT],
        ),
        (&[0x20, 0x00, 0xdf, 0xff], &[]),
        // 2000 + 0008 + ffff + ffff + ddf7 = 2fdfd, fdfd + 2 = fdff, and ffff - fdff = 0200.
        (
            &[
                0x20, 0x00, 0x02, 0x00, 0x00, 0x08, 0xff, 0xff, 0xff, 0xff, 0xdd, 0xf7,
            ],
            &[Object {
                class: 255,
                c_type: 255,
                payload: &[0xff, 0xff, 0xdd, 0xf7],
            }],
        ),
        // Lengths that are no multiple of 4: 2000 + 0005 + f701 + aa00 + 04f7 + 0200 = 1c7fd, c7fd + 1 = c7fe, and
        // ffff - c7fe = 3801.
        (
            &[
                0x20, 0x00, 0x38, 0x01, 0x00, 0x05, 0xf7, 0x01, 0xaa, 0x00, 0x04, 0xf7, 0x02,
            ],
            &[
                Object {
                    class: 247,
                    c_type: 1,
                    payload: &[0xaa],
                },
                Object {
                    class: 247,
                    c_type: 2,
                    payload: &[],
                },
            ],
        ),
    ];
    for (octets, objects) in rows {
        check_structure(&rt, octets, objects);
    }
}

// An interface by its name, as an extended echo request asks for it (RFC 8335 section 2.1).
// 2000 + 0008 + 0301 + 6574 + 6830 = f0ad, and ffff - f0ad = 0f52.
#[test]
fn a_structure_is_written(rt: HostRuntime) {
    let objects = [Object {
        class: 3,
        c_type: 1,
        payload: b"eth0",
    }];
    let text: &[u8] = &[
        0x20, 0x00, 0x0f, 0x52, 0x00, 0x08, 0x03, 0x01, 0x65, 0x74, 0x68, 0x30,
    ];
    same(&rt, structure::buffer_len(&objects), 12);
    for &fill in FILLS {
        let mut octets = [fill; 12];
        structure::emit(&objects, &mut octets);
        same_of(&rt, fill, &octets[..], text);
    }
    check_structure(&rt, text, &objects);
}

#[test]
fn a_structure_without_objects_is_written(rt: HostRuntime) {
    same(&rt, structure::buffer_len(&[]), 4);
    for &fill in FILLS {
        let mut octets = [fill; 4];
        structure::emit(&[], &mut octets);
        same_of(&rt, fill, &octets[..], &[0x20, 0x00, 0xdf, 0xff][..]);
    }
}

#[test]
fn what_is_refused_as_a_structure(rt: HostRuntime) {
    let rows: &[(&[u8], StructureRefusal)] = &[
        (&[0x20, 0x00, 0xdf], StructureRefusal::Short),
        // The checksum is right: 220b - 1000 = 120b, and ffff - 120b = edf4.
        (
            &[
                0x10, 0x00, 0xed, 0xf4, 0x00, 0x08, 0x01, 0x01, 0x00, 0x01, 0x01, 0x01,
            ],
            StructureRefusal::Version(1),
        ),
        (
            &[
                0x20, 0x00, 0xdd, 0xf5, 0x00, 0x08, 0x01, 0x01, 0x00, 0x01, 0x01, 0x01,
            ],
            StructureRefusal::Checksum,
        ),
    ];
    for (octets, refusal) in rows {
        same_of(&rt, octets, structure::parse(octets).err(), Some(*refusal));
    }
}

#[test]
fn objects_end_at_the_first_that_is_refused(rt: HostRuntime) {
    let rows: &[(&[u8], ObjectRefusal)] = &[
        (
            &[0x00, 0x04, 0x03, 0x01, 0x00, 0x08, 0x01],
            ObjectRefusal::Short,
        ),
        (
            &[0x00, 0x04, 0x03, 0x01, 0x00, 0x03, 0x01, 0x01, 0x00, 0x00],
            ObjectRefusal::Length,
        ),
        (
            &[
                0x00, 0x04, 0x03, 0x01, 0x00, 0x08, 0x01, 0x01, 0x00, 0x01, 0x01,
            ],
            ObjectRefusal::Cut,
        ),
    ];
    for (octets, refusal) in rows {
        let first = Object {
            class: 3,
            c_type: 1,
            payload: &[],
        };
        let mut answers = Objects::new(octets).iter();
        same_of(&rt, octets, answers.next(), Some(Ok(first)));
        same_of(&rt, octets, answers.next(), Some(Err(*refusal)));
        same_of(&rt, octets, answers.next(), None);
        same_of(&rt, octets, answers.next(), None);
    }
}

// Checks that this object is at the front of the octets, with those behind it, and that it is written as it was.
fn check_object(rt: &impl Abort, octets: &[u8], wanted: Object<'_>, behind: &[u8]) {
    same_of(rt, octets, Object::parse(octets), Ok((wanted, behind)));
    let len = wanted.buffer_len();
    same_of(rt, octets, len + behind.len(), octets.len());
    for &fill in FILLS {
        let mut buffer = [fill; 16];
        if len <= 16 && len <= octets.len() {
            wanted.emit_into(&mut buffer);
            same_of(rt, fill, &buffer[..len], &octets[..len]);
            for &octet in &buffer[len..] {
                same(rt, octet, fill);
            }
        }
    }
}

#[test]
fn objects_are_written_as_they_were(rt: HostRuntime) {
    let rows: &[(&[u8], Object<'_>, &[u8])] = &[
        (
            &[0x00, 0x08, 0x01, 0x01, 0x00, 0x01, 0x01, 0x01],
            OBJECT,
            &[],
        ),
        (
            &[0x00, 0x05, 0xf7, 0x01, 0xaa, 0x00, 0x04, 0xf7, 0x02],
            Object {
                class: 247,
                c_type: 1,
                payload: &[0xaa],
            },
            &[0x00, 0x04, 0xf7, 0x02],
        ),
        (
            &[0x00, 0x04, 0xff, 0x00],
            Object {
                class: 255,
                c_type: 0,
                payload: &[],
            },
            &[],
        ),
    ];
    for (octets, object, behind) in rows {
        check_object(&rt, octets, *object, behind);
    }
}

#[test]
fn texts_of_objects_and_their_refusals(rt: HostRuntime) {
    prints(&rt, rt.alloc(), &OBJECT, "object class=1 c_type=1 len=4");
    takes_writes(&rt, &OBJECT, 6);
    let rows: &[(StructureRefusal, &str)] = &[
        (
            StructureRefusal::Short,
            "the header of the extensions is cut",
        ),
        (
            StructureRefusal::Version(15),
            "the extensions are of version 15",
        ),
        (
            StructureRefusal::Checksum,
            "the checksum of the extensions is wrong",
        ),
    ];
    for (refusal, text) in rows {
        prints(&rt, rt.alloc(), refusal, text);
    }
    takes_writes(&rt, &StructureRefusal::Version(1), 2);
    let rows: &[(ObjectRefusal, &str)] = &[
        (ObjectRefusal::Short, "the header of the object is cut"),
        (
            ObjectRefusal::Length,
            "the object has fewer than 4 bytes by its length",
        ),
        (ObjectRefusal::Cut, "the object is cut"),
    ];
    for (refusal, text) in rows {
        prints(&rt, rt.alloc(), refusal, text);
    }
}
