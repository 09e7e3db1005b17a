// The kinds of product set against plain lists of truth values.
#![tactic(auto)]

#[cfg(test)]
mod tests {
    use product_sets::{Kind, Mask, Range, Single, first};
    use std::process::Abort;

    // The places that are tried reach past the count of every kind.
    const TRIED: usize = 256;

    #[derive(Clone, Copy)]
    enum Shape {
        Empty,
        Full,
        Alternating,
        Only(usize),
    }

    const SHAPES: [Shape; 12] = [
        Shape::Empty,
        Shape::Full,
        Shape::Alternating,
        Shape::Only(0),
        Shape::Only(1),
        Shape::Only(62),
        Shape::Only(63),
        Shape::Only(64),
        Shape::Only(198),
        Shape::Only(199),
        Shape::Only(200),
        Shape::Only(255),
    ];

    impl Shape {
        fn wants(self, place: usize) -> bool {
            match self {
                Shape::Empty => false,
                Shape::Full => true,
                Shape::Alternating => place % 2 == 0,
                Shape::Only(only) => place == only,
            }
        }

        fn listed(self, count: usize) -> [bool; 256] {
            let mut list = [false; 256];
            for (place, item) in list.iter_mut().enumerate() {
                *item = place < count && self.wants(place);
            }
            list
        }

        fn put_into<K: Kind>(self, kind: &mut K) -> K::Set {
            let mut set = kind.none();
            for place in 0..TRIED {
                if self.wants(place) {
                    set = kind.put(set, place);
                }
            }
            set
        }
    }

    // Whether a set has the places that a list says.
    fn agrees<K: Kind>(kind: &K, set: K::Set, list: &[bool; 256]) -> bool {
        list.iter()
            .enumerate()
            .all(|(place, wanted)| kind.has(set, place) == *wanted)
    }

    // What meet, join, rest and same have to say of two lists.
    fn expected(
        left: &[bool; 256],
        right: &[bool; 256],
        count: usize,
    ) -> ([bool; 256], [bool; 256], [bool; 256], bool) {
        let mut met = [false; 256];
        let mut joined = [false; 256];
        let mut rest = [false; 256];
        for place in 0..TRIED {
            met[place] = left[place] & right[place];
            joined[place] = left[place] | right[place];
            rest[place] = place < count && !left[place];
        }
        (met, joined, rest, left == right)
    }

    fn combine<K: Kind>(rt: &impl Abort, kind: &mut K, a: Shape, b: Shape) {
        let count = kind.places_count();
        let left = a.listed(count);
        let right = b.listed(count);
        let (met, joined, rest, alike) = expected(&left, &right, count);
        let s = a.put_into(kind);
        let t = b.put_into(kind);
        let both = kind.meet(s, t);
        let either = kind.join(s, t);
        let others = kind.rest(s);
        assert!(rt; agrees(kind, s, &left) & agrees(kind, t, &right), "put");
        assert!(rt; agrees(kind, both, &met), "meet");
        assert!(rt; agrees(kind, either, &joined), "join");
        assert!(rt; agrees(kind, others, &rest), "rest");
        assert!(rt; kind.same(s, t) == alike, "same");
    }

    fn all_pairs<K: Kind>(rt: &impl Abort, kind: &mut K, count: usize) {
        assert_eq!(rt; kind.places_count(), count);
        for a in SHAPES {
            for b in SHAPES {
                combine(rt, kind, a, b);
            }
        }
    }

    fn firsts<K: Kind>(rt: &impl Abort, kind: &mut K) {
        let count = kind.places_count();
        for n in [0, 1, 62, 63, 64, 198, 199, 200, 255] {
            let set = first(kind, n);
            for place in 0..TRIED {
                assert!(rt; kind.has(set, place) == (place < n && place < count));
            }
        }
    }

    #[test]
    fn single_pairs(rt: HostRuntime) {
        all_pairs(&rt, &mut Single, 1);
    }

    #[test]
    fn mask_pairs(rt: HostRuntime) {
        all_pairs(&rt, &mut Mask, 64);
    }

    #[test]
    fn range_pairs(rt: HostRuntime) {
        all_pairs(&rt, &mut Range, 200);
    }

    #[test]
    fn first_places(rt: HostRuntime) {
        firsts(&rt, &mut Single);
        firsts(&rt, &mut Mask);
        firsts(&rt, &mut Range);
    }
}
