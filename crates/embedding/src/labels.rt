//! The faces, each walked from its lowest dart.
ghost use Rattle.std.specs.Prelude.{◌≡◌, ℕ, ◌<◌, ◌≤◌, length, take};
ghost use Rattle.finite.specs.Walks.{OneToOne};
ghost use Rattle.embedding.specs.Plates.{Plate as PlateOf};
ghost use Rattle.embedding.specs.Steps.{next_of, FaceLabelled};

// The dart after each dart. An array: the library allocates nothing.
#[derive(Clone, Copy)]
pub struct Walk {
    pub darts: usize,
    pub next: [u8; 256],
    pub ghost few: { darts ≤ 256 },
    pub ghost one: { OneToOne (next_of next) darts },
}

// The faces: each dart's face, the darts that have one, each face's size, how many. Arrays: the library allocates nothing.
// `met` stands beside `face`: the plate keeps plain numbers, and an array of `Option<u8>` would have to be copied out into them.
#[derive(Clone, Copy)]
pub struct Labelled {
    pub face: [u8; 256],
    pub met: [bool; 256],
    pub sizes: [u16; 256],
    pub faces: usize,
}

impl Labelled {
    // The sizes as a plate keeps them: those of the first 66 faces.
    pub fn plate_sizes(&self) -> [u16; 66]
        ensures { result ≡ take 66 self.now.sizes }
    {
        let mut sizes = [0; 66];
        sizes.copy_from_slice(&self.sizes[..66]);
        sizes
    }
}

impl Walk {
    ghost use Rattle.embedding.specs.Read.{Follows, Fitting, OneLabelled, FacesLabelled};

    // The face of dart `d` labelled; its size.
    fn label_face(&self, d: usize, number: u8, face: &mut [u8], met: &mut [bool]) -> u16
        requires { (d < self.now.darts) × (length face.old ≡ 256) × (length met.old ≡ 256) }
        ensures { FaceLabelled self.now.next self.now.darts d number face.old met.old face.new met.new result }
    {
        let mut size = 0u16;
        let mut at = d;
        // A loop: each dart tells the next, so no iterator gives the darts of a face.
        loop {
            face[at] = number;
            met[at] = true;
            size += 1;
            at = usize::from(self.next[at]);
            if at == d {
                return size;
            }
        }
    }

    // Dart `d`: where it has no label its face is the next.
    fn label_next(&self, d: usize, all: &mut Labelled)
        requires { (d < self.now.darts) × Fitting d all.old }
        ensures { OneLabelled self.now.darts self.now.next d all.old all.new }
    {
        if all.met[d] {
            return;
        }
        let count = all.faces;
        // `as`: there are fewer faces so far than darts, and `try_from` would test it again.
        all.sizes[count] = self.label_face(d, count as u8, &mut all.face, &mut all.met);
        all.faces = count + 1;
    }

    // The darts in order, each face labelled from its lowest dart.
    pub fn faces(&self) -> Labelled
        ensures { (p : PlateOf) → Follows p self.now.darts self.now.next → FacesLabelled p result }
    {
        let mut all = Labelled {
            face: [0; 256],
            met: [false; 256],
            sizes: [0; 256],
            faces: 0,
        };
        for d in 0..self.darts {
            self.label_next(d, &mut all);
        }
        all
    }
}
